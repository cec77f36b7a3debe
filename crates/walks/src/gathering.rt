// The rosters of all extensions together: what any of new's has, and what each of old's has. One test of these two tells that no extension shows.
ghost use Rattle.std.specs.Prelude.{◌≡◌, ℕ, cond, ◌+◌, length};
ghost use Rattle.grants.specs.Scratch.{Walkable};
ghost use Rattle.walks.specs.Gathers.{Computes, joined_by, gathered, HasNew, InOld};

use crate::stems;
use crate::stems::Side;
use grants::rosters;
use grants::scratch::Counts;

// `all` joined with a roster, method by method.
pub fn join_into<F: Fn(u64, u64) -> u64>(roster: &[u64], join: F, all: &mut [u64])
    requires callable { F.IsAlwaysCallable join }
    requires sizes { (length roster.now ≡ 32) × (length all.old ≡ 32) }
    ensures { (op : ℕ → ℕ → ℕ) → Computes (F.post join) op → all.new ≡ joined_by op all.old roster.now }
{
    for (m, one) in all.iter_mut().enumerate() {
        *one = join(*one, roster[m]);
    }
}

// `all` joined with the rosters of a listing, one after the other, of the stems with an extension.
pub fn gather<F: Fn(u64, u64) -> u64 + Copy>(
    x: &[u32],
    c: Counts,
    side: Side,
    join: F,
    all: &mut [u64],
)
    requires callable { F.IsAlwaysCallable join }
    requires fits { Walkable x.now c × (length all.old ≡ 32) }
    ensures { (op : ℕ → ℕ → ℕ) → Computes (F.post join) op → all.new ≡ gathered op x.now c side (c.old + c.new) all.old }
{
    let count = c.old + c.new;
    // Kept: fixed memory, no heap: a set for each of 31 methods, as many as there can be, and one for all others.
    let mut roster = [rosters::EVERYONE; 32];
    let mut had = 0;
    for i in 0..count {
        if !stems::is_of_sort(x, i, 3) {
            continue;
        }
        had = stems::refresh(x, c, side, had, i, &mut roster);
        join_into(&roster, join, all);
    }
}

// What any of new's rosters has, of the stems with an extension.
pub fn gather_new(x: &[u32], c: Counts, any: &mut [u64])
    requires { Walkable x.now c × (length any.old ≡ 32) }
    ensures { HasNew x.now c (c.old + c.new) any.new }
{
    gather(x, c, Side::New, |any, one| any | one, any)
}

// What each of old's rosters has, of those stems.
pub fn gather_old(x: &[u32], c: Counts, each: &mut [u64])
    requires { Walkable x.now c × (length each.old ≡ 32) }
    ensures { InOld x.now c (c.old + c.new) each.new }
{
    gather(x, c, Side::Old, |each, one| each & one, each)
}

// The roster of a stem where its best line stays, or else that of all extensions.
pub fn own_or_all<'a>(firm: bool, own: &'a [u64], all: &'a [u64]) -> &'a [u64]
    ensures { result.now ≡ cond firm own.now all.now }
{
    if firm { own } else { all }
}
