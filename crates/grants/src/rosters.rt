// Whom a listing grants at a best line, method by method, from the table of its side. A set of callers has digit 0 for one who is not logged
// in, digit 1 for one who is logged in without a role, and digit i + 2 for one with role i of new.
ghost use Rattle.std.specs.Prelude.{◌≡◌, ◌+◌, ◌≤◌, ◌<◌, length, get_or};
ghost use Rattle.grants.specs.Sides.{access_in, grantees_of, listed, roster_in};
ghost use Rattle.grants.specs.Codes.{code_of, code_for, joined_with, joined_in, grantees_at, none, Along};

// The set of all callers.
pub const EVERYONE: u64 = 18446744073709551615;

// A constraint that is `open`, and one that closes, as numbers.
pub const OPEN: u64 = 12884901888;

pub const CLOSED: u64 = 21474836480;

// What line k of the table says, as one number: its roles, and above them a digit each for a constraint at all, one that is open, and one that closes.
pub fn code_of(side: &[u32], k: usize) -> u64
    requires { (length side.now ≡ 512) × (k < 128) }
    ensures code { result ≡ code_of (access_in side.now k) }
    ensures small { get_or side.now (256 + k) 0 < 4294967296 }
{
    match side[128 + k] {
        0 => OPEN,
        1 => CLOSED,
        _ => 4294967296 + u64::from(side[256 + k]),
    }
}

// The number of a line, with that cover, for method m.
pub fn code_for(cover: u32, code: u64, m: usize) -> u64
    requires { m < 32 }
    ensures { result ≡ code_for cover code m }
{
    if (cover >> (m % 32) as u32) % 2 == 1 {
        return code;
    }
    0
}

// A line joined with what stands in the roster, for each method that it covers.
pub fn join_line(cover: u32, code: u64, roster: &mut [u64])
    requires { length roster.old ≡ 32 }
    ensures { roster.new ≡ listed 32 (joined_with cover code roster.old) }
{
    for (m, number) in roster.iter_mut().enumerate() {
        *number |= code_for(cover, code, m);
    }
}

// The lines with the text of line `first`, from there on, joined in a roster in which nothing is; n lines in all.
pub fn join_along(side: &[u32], n: usize, first: usize, roster: &mut [u64])
    requires { ((length side.now ≡ 512) × (n ≤ 128)) × (roster.old ≡ listed 32 none) }
    ensures { Along side.now n first roster.new }
{
    let mut k = first;
    // Kept: the table tells how far the next line with the text is, so the index leaps; `iter::successors` would do the same by a closure with a clause of its own, and be no plainer.
    while k < n {
        let next = k + 1 + side[384 + k] as usize;
        join_line(side[k], code_of(side, k), roster);
        k = next;
    }
}

// Whom that which is joined in a number grants.
pub fn callers_in(x: u64) -> u64
    ensures { result ≡ grantees_of (joined_in x) }
{
    if x / 4294967296 % 2 != 1 {
        return EVERYONE;
    }
    if x / 17179869184 % 2 == 1 {
        return 0;
    }
    if x / 8589934592 % 2 == 1 {
        return EVERYONE;
    }
    4 * (x % 4294967296)
}

// In each number of a roster.
pub fn grant_roster(roster: &mut [u64])
    requires { length roster.old ≡ 32 }
    ensures { roster.new ≡ listed 32 (grantees_at roster.old) }
{
    for number in roster.iter_mut() {
        *number = callers_in(*number);
    }
}

// A roster in which nothing is joined.
pub fn clear(roster: &mut [u64])
    requires { length roster.old ≡ 32 }
    ensures { roster.new ≡ listed 32 none }
{
    roster.fill(0);
}

// Whom the table grants at a best line, for each method.
pub fn fill_roster(side: &[u32], n: usize, line: usize, roster: &mut [u64])
    requires { ((length side.now ≡ 512) × (n ≤ 128)) × (length roster.old ≡ 32) }
    ensures { roster.new ≡ roster_in side.now n line }
{
    clear(roster);
    if line == 0 {
        grant_roster(roster);
        return;
    }
    join_along(side, n, line - 1, roster);
    grant_roster(roster);
}

// From the roster of the line `had` to that of another.
pub fn refresh(side: &[u32], n: usize, had: usize, line: usize, roster: &mut [u64])
    requires { ((length side.now ≡ 512) × (n ≤ 128)) × (roster.old ≡ roster_in side.now n had) }
    ensures { roster.new ≡ roster_in side.now n line }
{
    if had == line {
        return;
    }
    fill_roster(side, n, line, roster);
}
