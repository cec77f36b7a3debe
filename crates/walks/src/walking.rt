// The walk over the numbers: stem after stem, and behind a prefix all extensions at once.
ghost use Rattle.std.specs.Prelude.{◌≡◌, false, ◌+◌, ◌≤◌, eqb, length};
ghost use Rattle.grants.specs.Scratch.{Walkable, sort_at};
ghost use Rattle.walks.specs.Walks.{caught_behind, behind, stem_hit, walked};
ghost use Rattle.walks.specs.Gathers.{Gathered, AtStem, caught_together};

use crate::stems::Side;
use crate::{gathering, stems};
use grants::judging::Catch;
use grants::scratch::Counts;
use grants::{judging, rosters, scratch};

// A stem, the line whose extension stands behind it, if any, and who is caught there.
#[derive(Clone, Copy)]
pub struct Hit {
    pub stem: usize,
    pub ending: Option<usize>,
    pub caught: Catch,
}

// Who is caught at stem j, with the extension of stem i behind it.
pub fn catch_behind(x: &[u32], c: Counts, j: usize, i: usize) -> Option<Catch>
    requires { Walkable x.now c × ((j ≤ 256) × (i ≤ 256)) }
    ensures { result ≡ caught_behind x.now c j i }
{
    let u = stems::line_behind(stems::best(x, Side::Old, j), stems::best(x, Side::Old, i));
    let v = stems::line_behind(stems::best(x, Side::New, j), stems::best(x, Side::New, i));
    let old = &x[scratch::OLD_SIDE..scratch::NEW_SIDE];
    let new = &x[scratch::NEW_SIDE..scratch::METHODS];
    let pairs = &x[scratch::METHODS..scratch::IN_OLD];
    judging::judge_lines(old, c.old, new, c.new, pairs, c.methods, u, v)
}

// The first extension by which stem j shows.
pub fn go_behind(x: &[u32], c: Counts, j: usize) -> Option<Hit>
    requires { Walkable x.now c × (j ≤ 256) }
    ensures { result ≡ behind x.now c j }
{
    let count = c.old + c.new;
    for i in 0..count {
        if stems::is_of_sort(x, i, 3) {
            if let Some(caught) = catch_behind(x, c, j, i) {
                return Some(Hit {
                    stem: j,
                    ending: Some(i),
                    caught,
                });
            }
        }
    }
    None
}

// Who is caught where all extensions behind stem j, whose rosters are ro and rn, are taken together.
pub fn catch_together<'a>(
    x: &[u32],
    c: Counts,
    j: usize,
    ro: &'a [u64],
    rn: &'a [u64],
    each: &'a [u64],
    any: &'a [u64],
) -> Option<Catch>
    requires { (Walkable x.now c × AtStem x.now c j ro.now rn.now) × Gathered x.now c each.now any.now }
    ensures { result ≡ caught_together x.now c j ro.now rn.now each.now any.now }
{
    let o = gathering::own_or_all(stems::is_firm(stems::best(x, Side::Old, j)), ro, each);
    let n = gathering::own_or_all(stems::is_firm(stems::best(x, Side::New, j)), rn, any);
    judging::judge(o, n, &x[scratch::METHODS..scratch::IN_OLD], c.methods)
}

// What stem j shows, whose rosters are ro and rn.
pub fn try_stem<'a>(
    x: &[u32],
    c: Counts,
    j: usize,
    ro: &'a [u64],
    rn: &'a [u64],
    each: &'a [u64],
    any: &'a [u64],
) -> Option<Hit>
    requires { ((Walkable x.now c × AtStem x.now c j ro.now rn.now) × Gathered x.now c each.now any.now) × (eqb (sort_at x.now j) 0 ≡ false) }
    ensures { result ≡ stem_hit x.now c j }
{
    let pairs = &x[scratch::METHODS..scratch::IN_OLD];
    if let Some(caught) = judging::judge(ro, rn, pairs, c.methods) {
        return Some(Hit {
            stem: j,
            ending: None,
            caught,
        });
    }
    if !stems::is_of_sort(x, j, 2) {
        return None;
    }
    catch_together(x, c, j, ro, rn, each, any)?;
    go_behind(x, c, j)
}

// Stem after stem. The rosters are kept over the turns, since many stems have one best line.
pub fn walk_with<'a>(x: &[u32], c: Counts, each: &'a [u64], any: &'a [u64]) -> Option<Hit>
    requires { Walkable x.now c × Gathered x.now c each.now any.now }
    ensures { result ≡ walked x.now c }
{
    let count = c.old + c.new + 1;
    // Kept: fixed memory, no heap: a set for each of 31 methods, as many as there can be, and one for all others.
    let mut ro = [rosters::EVERYONE; 32];
    let mut rn = [rosters::EVERYONE; 32];
    let mut lo = 0;
    let mut ln = 0;
    for j in 0..count {
        if stems::is_of_sort(x, j, 0) {
            continue;
        }
        lo = stems::refresh(x, c, Side::Old, lo, j, &mut ro);
        ln = stems::refresh(x, c, Side::New, ln, j, &mut rn);
        if let Some(hit) = try_stem(x, c, j, &ro, &rn, each, any) {
            return Some(hit);
        }
    }
    None
}

// The first request that new grants and old does not.
pub fn walk(x: &[u32], c: Counts) -> Option<Hit>
    requires { Walkable x.now c }
    ensures { result ≡ walked x.now c }
{
    // Kept: fixed memory, no heap: a set for each of 31 methods, as many as there can be, and one for all others.
    let mut each = [rosters::EVERYONE; 32];
    let mut any = [0; 32];
    gathering::gather_old(x, c, &mut each);
    gathering::gather_new(x, c, &mut any);
    walk_with(x, c, &each, &any)
}
