// The most that a listing may hold.
#![tactic(auto)]

ghost use Rattle.std.specs.Prelude.{◌≡◌};
ghost use Rattle.limits.specs.Limits.{most_of};

// What has a most-number.
#[derive(Clone, Copy)]
pub enum Counted {
    Bytes,
    Constraints,
    Collections,
    Patterns,
    MethodLines,
    Roles,
    Methods,
}

// The most bytes.
pub const BYTES: usize = 24576;

// The most-number: how many of them a listing may hold.
pub fn most(c: Counted) -> usize
    ensures { result ≡ most_of c }
{
    match c {
        Counted::Bytes => BYTES,
        Counted::Constraints => 64,
        Counted::Collections => 128,
        Counted::Patterns => 128,
        Counted::MethodLines => 512,
        Counted::Roles => 32,
        Counted::Methods => 31,
    }
}
