// The table of a side: what each `pattern` line of a view says, with its roles in the numbers of new's, and how far the next line with
// the same text is. Covers stand first, then accesses, roles and gaps, 128 of each, in the scratch from `at` on.
ghost use Rattle.std.specs.Prelude.{ℕ, ◌≡◌, ◌+◌, ◌≤◌, ◌<◌, length};
ghost use Rattle.reading.specs.Views.{texts, cover_at};
ghost use Rattle.grants.specs.Sides.{access_number, access_roles, gap_at};
ghost use Rattle.numbers.specs.Gaps.{Gapable, GapsLent};
ghost use Rattle.numbers.specs.Writes.{Wrote, LinesWritten, Mapped, access_number_at, renumbered_by, roles_by, Plain, SideWritten};

use crate::searching;
use reading::held::{Access, View};

// What a call gives for each of n lines is written from `at` on.
pub fn fill_each<F: Fn(usize) -> u32>(w: &mut [u32], at: usize, n: usize, number: F)
    requires room { at + n ≤ length w.old }
    requires calls { (k : ℕ) → k < n → F.pre number k }
    ensures { (f : ℕ → ℕ) → ((k r : ℕ) → k < n → F.post number k r → r ≡ f k) → Wrote at n f w.old w.new }
{
    for k in 0..n {
        w[at + k] = number(k);
    }
}

// The covers.
pub fn fill_covers(view: &View, w: &mut [u32], at: usize)
    requires { at + 128 ≤ length w.old }
    ensures { LinesWritten view.now cover_at at w.old w.new }
{
    fill_each(w, at, view.pattern_count(), |k| view.cover(k));
}

// 0 open, 1 closed, 2 by role.
// Kept: no `From`, which would have to stand in reading, where nothing knows of the scratch; `access_number` of grants' definitions says the numbers.
pub fn access_number(a: Access) -> u32
    ensures { result ≡ access_number a }
{
    match a {
        Access::Open => 0,
        Access::Closed => 1,
        Access::ByRole(_) => 2,
    }
}

// The roles that it allows.
pub fn roles_of(a: Access) -> u64
    ensures { result ≡ access_roles a }
{
    match a {
        Access::Open | Access::Closed => 0,
        Access::ByRole(x) => x,
    }
}

// The number of line k's access.
pub fn access_number_at(view: &View, k: usize) -> u32
    requires { k < length (texts view.now) }
    ensures { result ≡ access_number_at view.now k }
{
    access_number(view.access(k))
}

// The accesses.
pub fn fill_accesses(view: &View, w: &mut [u32], at: usize)
    requires { at + 128 ≤ length w.old }
    ensures { LinesWritten view.now access_number_at at w.old w.new }
{
    fill_each(w, at, view.pattern_count(), |k| access_number_at(view, k));
}

// The index of each of new's roles among those of the other view; how many there are.
pub fn fill_map(new: &View, view: &View, map: &mut [u32]) -> usize
    requires { length map.old ≡ 32 }
    ensures indices { Mapped new.now.roles view.now.roles map.new }
    ensures count { result ≡ length new.now.roles }
    ensures few { result ≤ 32 }
{
    let n = new.role_count();
    for i in 0..n {
        map[i] = view.role_index(new.role(i)) as u32;
    }
    n
}

// A set of `own` roles in the numbers of new's, of which the map has n.
pub fn renumber(map: &[u32], n: usize, own: usize, set: u64) -> u32
    requires { (length map.now ≡ 32) × ((n ≤ 32) × (own ≤ 32)) }
    ensures { result ≡ renumbered_by map.now n own set }
{
    let mut out: u32 = 0;
    for i in 0..n {
        let j = map[i] as usize;
        if j < own && (set >> (j % 64) as u32) % 2 == 1 {
            out |= 1 << (i % 32) as u32;
        }
    }
    out
}

// The roles of line k.
pub fn roles_at(view: &View, map: &[u32], n: usize, k: usize) -> u32
    requires { (k < length (texts view.now)) × ((length map.now ≡ 32) × (n ≤ 32)) }
    ensures { result ≡ roles_by map.now n view.now k }
{
    renumber(map, n, view.role_count(), roles_of(view.access(k)))
}

// The roles.
pub fn fill_roles(view: &View, map: &[u32], n: usize, w: &mut [u32], at: usize)
    requires { (at + 128 ≤ length w.old) × ((length map.now ≡ 32) × (n ≤ 32)) }
    ensures { LinesWritten view.now (roles_by map.now n) at w.old w.new }
{
    fill_each(w, at, view.pattern_count(), |k| roles_at(view, map, n, k));
}

// How many lines stand between line k and the next with the same text, or follow it where there is none. The numbers of the first lines tell which have one text.
pub fn gap(view: &View, firsts: &[u32], k: usize) -> usize
    requires { Gapable view.now firsts.now k }
    ensures { result ≡ gap_at view.now k }
{
    let behind = &firsts[k + 1..view.pattern_count()];
    searching::position_of(behind, firsts[k]).unwrap_or(behind.len())
}

// The gaps.
pub fn fill_gaps(view: &View, firsts: &[u32], w: &mut [u32], at: usize)
    requires { GapsLent view.now firsts.now at 128 w.old }
    ensures { LinesWritten view.now gap_at at w.old w.new }
{
    fill_each(
        w,
        at,
        view.pattern_count(),
        |k|
            requires { Gapable view.now firsts.now k }
            ensures { result ≡ gap_at view.entry.now k }
        { gap(view, firsts, k) as u32 },
    );
}

// All of the table but the roles.
pub fn fill_plain(view: &View, firsts: &[u32], w: &mut [u32], at: usize)
    requires { GapsLent view.now firsts.now at 512 w.old }
    ensures { Plain view.now at w.old w.new }
{
    fill_covers(view, w, at);
    fill_accesses(view, w, at + 128);
    fill_gaps(view, firsts, w, at + 384);
}

// The whole table of the view, with its roles in the numbers of new's.
pub fn fill_side<'s, 'w>(
    new: &View<'s, 'w>,
    view: &View<'s, 'w>,
    firsts: &[u32],
    w: &mut [u32],
    at: usize,
)
    requires { GapsLent view.now firsts.now at 512 w.old }
    ensures { SideWritten new.now.roles view.now at w.old w.new }
{
    // Kept: fixed memory, no heap: a number for each of 32 roles, as many as there can be.
    let mut map = [0; 32];
    let n = fill_map(new, view, &mut map);
    fill_plain(view, firsts, w, at);
    fill_roles(view, &map, n, w, at + 256);
}
