// Which bytes of a packet one keystream runs over.
ghost use Rattle.std.specs.Prelude.{◌≤◌};
ghost use Rattle.bits.specs.Portion.{Bounds};

use std::marker::Model;

// The bytes from `first` up to `stop`, and then from `rest` on, in one unbroken keystream.
#[derive(Clone, Copy)]
pub struct Portion {
    pub first: usize,
    pub stop: usize,
    pub rest: usize,
}

impl Model for Portion {
    ghost Value = { Bounds };

    ghost view = { λ p. record { first = p.first; stop = p.stop; rest = p.rest } };

    ghost invariant = { λ p. (p.first ≤ p.stop) × (p.stop ≤ p.rest) };

    ghost inverse = { λ v. record { first = v.first; stop = v.stop; rest = v.rest } };
}
