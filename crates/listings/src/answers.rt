// What a call can be refused for, and 01's numbers.
ghost use Rattle.std.specs.Prelude.{◌≡◌};
ghost use Rattle.listings.specs.Refusals.{number_of, report};

// What a listing can be refused for; specs/Refusals.antt gives the numbers.
#[derive(Clone, Copy, PartialEq, Eq)]
pub enum Fault {
    LongListing,
    BadFirstLine,
    BadForm,
    WrongPlace,
    BadName,
    BadPattern,
    RoleTwice,
    PastMost,
    NoEnd,
}

// 01's numbers of all refusals, those of a listing and those that are about none; include/budquarry.h has them by the same names.
pub const SHORT_TABLE: u32 = 1;

pub const LONG_LISTING: u32 = 2;

pub const BAD_FIRST_LINE: u32 = 3;

pub const BAD_FORM: u32 = 4;

pub const WRONG_PLACE: u32 = 5;

pub const BAD_NAME: u32 = 6;

pub const BAD_PATTERN: u32 = 7;

pub const PAST_MOST: u32 = 8;

pub const ROLE_TWICE: u32 = 9;

pub const NO_END: u32 = 10;

pub const BAD_PATH: u32 = 11;

pub const BAD_METHOD: u32 = 12;

pub const BAD_CALLER: u32 = 13;

pub const SMALL_ANSWER: u32 = 14;

// What every call hands back to C, by itself or first: all three are 0 where nothing is refused.
#[repr(C)]
#[derive(Clone, Copy)]
pub struct Report {
    pub number: u32,
    pub side: u32,
    pub line: u32,
}

// Nothing is refused.
pub fn accept() -> Report
    ensures { result ≡ report 0 0 0 }
{
    Report {
        number: 0,
        side: 0,
        line: 0,
    }
}

// A refusal.
pub fn refuse(number: u32, side: u32, line: u32) -> Report
    ensures { result ≡ report number side line }
{
    Report { number, side, line }
}

// 01's number of a fault.
impl From<Fault> for u32 {
    ghost from_gives = { λ f n. n ≡ number_of f };

    fn from(f: Fault) -> u32 {
        match f {
            Fault::LongListing => LONG_LISTING,
            Fault::BadFirstLine => BAD_FIRST_LINE,
            Fault::BadForm => BAD_FORM,
            Fault::WrongPlace => WRONG_PLACE,
            Fault::BadName => BAD_NAME,
            Fault::BadPattern => BAD_PATTERN,
            Fault::RoleTwice => ROLE_TWICE,
            Fault::PastMost => PAST_MOST,
            Fault::NoEnd => NO_END,
        }
    }
}
