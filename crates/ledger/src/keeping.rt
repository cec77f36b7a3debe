// What is written of a record: its number, names, and counts.
ghost use Rattle.std.specs.Prelude.{◌≡◌, ◌+◌, ◌*◌, ◌≤◌, ◌<◌, length, get_or};
ghost use Rattle.ledger.specs.Places.{Fits, number_of, name_number, with_one, with_name, with_record, with_last};

use crate::items::Item;
use crate::searching;

// Where each list begins, and where each number stands.
pub const ROLES: usize = 3600;

pub const METHODS: usize = 3632;

pub const DECLARED: usize = 3664;

pub const SIZE: usize = 3700;

pub const ROLE_COUNT: usize = 3701;

pub const METHOD_COUNT: usize = 3702;

pub const DECLARED_COUNT: usize = 3703;

pub const CONSTRAINTS: usize = 3704;

pub const COLLECTIONS: usize = 3705;

pub const PATTERNS: usize = 3706;

pub const LINES: usize = 3707;

pub const LAST: usize = 3708;

// So many records have room.
pub const MOST: usize = 3600;

// The number at place c.
pub fn count(w: &[u32], c: usize) -> usize
    requires { c < length w.now }
    ensures { result ≡ get_or w.now c 0 }
{
    w[c] as usize
}

// The number of the name t, which stands at that place of the file.
pub fn name_number(place: usize, t: &[u8]) -> u32
    requires { place ≤ 65536 }
    ensures { result ≡ name_number place t.now }
{
    place as u32 * 16384 + searching::stamp(t)
}

// One more of what is counted at c.
pub fn put_one(w: &mut [u32], c: usize)
    requires { (c < length w.old) × (get_or w.old c 0 ≤ 3602) }
    ensures { w.new ≡ with_one c w.old }
{
    w[c] += 1;
}

// The name x, whose place among those from `base` on, which are counted at c, is i: put behind them, where i is their number.
pub fn put_name(w: &mut [u32], base: usize, c: usize, i: usize, x: u32)
    requires { (base + i < length w.old) × ((c < length w.old) × (i ≤ 3602)) }
    ensures { w.new ≡ with_name base c i x w.old }
{
    if i == count(w, c) {
        w[base + i] = x;
        w[c] = i as u32 + 1;
    }
}

// The next record is the last constraint.
pub fn put_last(w: &mut [u32])
    requires { Fits w.old }
    ensures { w.new ≡ with_last w.old }
{
    w[LAST] = w[SIZE] + 1;
}

// One more record: its number where there is room, and the count up to one more than have room.
pub fn put_record(w: &mut [u32], item: Item, place: usize)
    requires { (4096 ≤ length w.old) × (place ≤ 65536) }
    ensures { w.new ≡ with_record (place * 8 + number_of item) w.old }
{
    let n = count(w, SIZE);
    if n < MOST {
        w[n] = place as u32 * 8 + u32::from(item);
        w[SIZE] = n as u32 + 1;
        return;
    }
    if n == MOST {
        w[SIZE] = n as u32 + 1;
    }
}
