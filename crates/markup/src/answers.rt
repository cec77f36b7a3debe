// What is handed back: why a text is refused and where, and what is read with the place behind it.
ghost use Rattle.std.specs.Prelude.{◌≡◌};
ghost use Rattle.markup.specs.Places.{number_of, blame, put_at, blame_at};

// What is wrong with a file, or with what it says.
#[derive(Clone, Copy, PartialEq, Eq)]
pub enum Cause {
    Malformed,
    Deep,
    Unwanted,
    BadName,
    BadPattern,
    RoleTwice,
    PastMost,
}

// The number that a caller is told.
impl From<Cause> for u32 {
    ghost from_gives = { λ cause number. number ≡ number_of cause };

    fn from(cause: Cause) -> u32 {
        match cause {
            Cause::Malformed => 17,
            Cause::Deep => 18,
            Cause::Unwanted => 19,
            Cause::BadName => 6,
            Cause::BadPattern => 7,
            Cause::RoleTwice => 9,
            Cause::PastMost => 8,
        }
    }
}

// A fault, and the place where it is put.
#[derive(Clone, Copy)]
pub struct Fault {
    pub cause: Cause,
    pub at: usize,
}

impl Fault {
    // What is no XML, at `at`.
    pub fn malformed(at: usize) -> Fault
        ensures { result ≡ blame Cause.Malformed at }
    {
        Fault {
            cause: Cause::Malformed,
            at,
        }
    }

    // The fault put at `here`, unless the text of `len` bytes runs out.
    pub fn blamed(self, here: usize, len: usize) -> Fault
        ensures { result ≡ put_at here len self }
    {
        if self.at == len {
            return self;
        }
        Fault {
            cause: self.cause,
            at: here,
        }
    }
}

// The answer r, its fault put at `here`, unless the text of `len` bytes runs out.
pub fn blame<T>(r: Result<T, Fault>, here: usize, len: usize) -> Result<T, Fault>
    ensures { result ≡ blame_at here len r }
{
    r.map_err(|f| f.blamed(here, len))
}

// A byte that was read, and the place behind it.
#[derive(Clone, Copy)]
pub struct Letter {
    pub byte: u8,
    pub next: usize,
}

// The end of a first tag: whether content follows, and the place behind it.
#[derive(Clone, Copy)]
pub struct Ended {
    pub full: bool,
    pub next: usize,
}

// A first tag: its name goes up to the place `end`, `full` says whether content follows, and `next` is the place behind it.
#[derive(Clone, Copy)]
pub struct Start {
    pub end: usize,
    pub full: bool,
    pub next: usize,
}
