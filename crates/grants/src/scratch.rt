// The scratch of a comparison: the 2,048 numbers of the lent work table behind the two listings, once their texts are numbers. specs/Scratch.antt says what it holds.

// Where each list begins.
pub const OLD_SIDE: usize = 0;

pub const NEW_SIDE: usize = 512;

pub const METHODS: usize = 1024;

pub const IN_OLD: usize = 1152;

pub const IN_NEW: usize = 1409;

pub const SORTS: usize = 1666;

// How many numbers it has.
pub const SCRATCH: usize = 2048;

// How many `pattern` lines old and new have, and how many trial methods there are.
#[derive(Clone, Copy)]
pub struct Counts {
    pub old: usize,
    pub new: usize,
    pub methods: usize,
}
