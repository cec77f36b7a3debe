// The numbers of a stem, and its rosters.
ghost use Rattle.std.specs.Prelude.{◌≡◌, ◌≤◌, eqb, length};
ghost use Rattle.grants.specs.Sides.{roster_in};
ghost use Rattle.grants.specs.Scratch.{sort_at, line_in, is_firm_in, staying, Walkable};
ghost use Rattle.walks.specs.Gathers.{table_on, count_on, best_on, roster_on};

use grants::scratch::Counts;
use grants::{rosters, scratch};

// One of the two listings.
#[derive(Clone, Copy)]
pub enum Side {
    Old,
    New,
}

// The table of its lines.
pub fn table<'a>(x: &'a [u32], side: Side) -> &'a [u32]
    requires { length x.now ≡ 2048 }
    ensures { result.now ≡ table_on x.now side }
{
    match side {
        Side::Old => &x[scratch::OLD_SIDE..scratch::NEW_SIDE],
        Side::New => &x[scratch::NEW_SIDE..scratch::METHODS],
    }
}

// How many lines it has.
pub fn line_count(c: Counts, side: Side) -> usize
    ensures { result ≡ count_on c side }
{
    match side {
        Side::Old => c.old,
        Side::New => c.new,
    }
}

// The best line of stem j in it.
pub fn best(x: &[u32], side: Side, j: usize) -> usize
    requires { (length x.now ≡ 2048) × (j ≤ 256) }
    ensures { result ≡ best_on x.now side j }
{
    match side {
        Side::Old => x[scratch::IN_OLD + j] as usize,
        Side::New => x[scratch::IN_NEW + j] as usize,
    }
}

// Kept: a sort is a number, since it stands so in the scratch, whose memory is fixed, and `sort_at` of grants' definitions says which.
// Whether it is of a sort.
pub fn is_of_sort(x: &[u32], j: usize, sort: u32) -> bool
    requires { (length x.now ≡ 2048) × (j ≤ 256) }
    ensures { result ≡ eqb (sort_at x.now j) sort }
{
    x[scratch::SORTS + j] == sort
}

// Whether the best line v stays where an extension stands behind the stem.
pub fn is_firm(v: usize) -> bool
    ensures { result ≡ is_firm_in v }
{
    v % 2 == 1
}

// The number of the line that it then is: v's own, or the extension's, u.
pub fn line_behind(v: usize, u: usize) -> usize
    ensures { result ≡ line_in (staying v u) }
{
    if is_firm(v) {
        return v / 2;
    }
    u / 2
}

// From a listing's roster of the line `had` to that of stem j; the number of its line.
pub fn refresh(x: &[u32], c: Counts, side: Side, had: usize, j: usize, roster: &mut [u64]) -> usize
    requires { (Walkable x.now c × (j ≤ 256)) × (roster.old ≡ roster_in (table_on x.now side) (count_on c side) had) }
    ensures roster { roster.new ≡ roster_on x.now c side (best_on x.now side j) }
    ensures line { result ≡ line_in (best_on x.now side j) }
{
    let line = best(x, side, j) / 2;
    rosters::refresh(table(x, side), line_count(c, side), had, line, roster);
    line
}
