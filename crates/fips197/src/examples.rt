// Worked examples of the standards as theorems of the definitions, which the checker computes.
ghost use Rattle.fips197.specs.Fips197.{WorkedExamples};

pub fn worked_examples_hold()
    ensures { WorkedExamples }
{}
