// The layout in numbers: where the fields of a session begin, and those of a record in it.

// "Delugash" in ASCII. A made session's first word is this plus the number of its policy and four times that of its suite.
pub const MARK: u64 = 0x44656C7567617368;

// The master key and salt are kept, and no call reads them. A field begins where the one before it ends.
pub const MASTER_KEY: usize = 1;

pub const MASTER_SALT: usize = MASTER_KEY + 2;

pub const IDS: usize = MASTER_SALT + 2;

pub const CIPHER: usize = IDS + 4;

pub const SALT: usize = CIPHER + 2;

pub const HEADER_CIPHER: usize = SALT + 2;

pub const HEADER_SALT: usize = HEADER_CIPHER + 2;

pub const INNER: usize = HEADER_SALT + 2;

pub const OUTER: usize = INNER + 5;

pub const HASH: usize = OUTER + 5;

// The words before the records, the records, the words of a record, and all words.
pub const FRONT: usize = HASH + 2;

pub const RECORDS: usize = 32;

pub const EACH: usize = REPLAY_END;

pub const SIZE: usize = FRONT + RECORDS * EACH;

// In a record.
pub const ROLLOVER: usize = 1;

pub const REPLAY: usize = 2;

pub const REPLAY_END: usize = 8;
