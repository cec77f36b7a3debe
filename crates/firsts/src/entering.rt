// Line after line: what it shares with those before, the first that has its text, and one that shares most.
ghost use Rattle.std.specs.Prelude.{◌≡◌, [], ◌≤◌, ◌<◌, length, get_or};
ghost use Rattle.text.specs.Texts.{same};
ghost use Rattle.firsts.specs.Shares.{lines_in, Sharing, Compared, ShareEntered, Enterable, FirstFound, Nearby, put_near, Entered, Counted, FirstsWritten};

use crate::{lines, sharing};
use reading::held::View;

// Where the numbers of the first lines begin.
pub const FIRSTS: usize = 1666;

// Whether line i has the text, which shares x bytes with it.
pub fn is_same<'s, 'w>(
    old: &View<'s, 'w>,
    new: &View<'s, 'w>,
    text: &[u8],
    i: usize,
    x: usize,
) -> bool
    requires { Compared old.now new.now text.now i x }
    ensures { result ≡ same (get_or (lines_in old.now new.now) i []) text.now }
{
    x == text.len() && lines::line_text(old, new, i).len() == x
}

// What a text shares with line i is entered; whether the line has the text.
pub fn share_line<'s, 'w>(
    old: &View<'s, 'w>,
    new: &View<'s, 'w>,
    w: &mut [u32],
    text: &[u8],
    i: usize,
) -> bool
    requires { Sharing old.now new.now text.now i w.old }
    ensures { ShareEntered text.now (lines_in old.now new.now) i w.old w.new result }
{
    let x = sharing::shared_with(old, new, w, text, i);
    let found = is_same(old, new, text, i, x);
    w[sharing::COMMON + i] = x as u32;
    found
}

// The first line with the text of line j. What that shares with the lines up to there is entered.
pub fn first_of<'s, 'w>(old: &View<'s, 'w>, new: &View<'s, 'w>, w: &mut [u32], j: usize) -> usize
    requires { Enterable old.now new.now j w.old }
    ensures { FirstFound (lines_in old.now new.now) j w.old w.new result }
{
    let text = lines::line_text(old, new, j);
    for i in 0..j {
        if share_line(old, new, w, text, i) {
            return i;
        }
    }
    j
}

// The first of the lines before j that shares most, or line 0 where there is none. That it shares most is only for speed.
pub fn nearest(w: &[u32], j: usize) -> usize
    requires { (2048 ≤ length w.now) × (j ≤ 256) }
    ensures { result ≤ j }
{
    let mut best = 0;
    let mut most = 0;
    for i in 0..j {
        let x = w[sharing::COMMON + i];
        if most < x {
            best = i;
            most = x;
        }
    }
    best
}

// Line j with its nearest line p and the first line f that has its text.
pub fn put_near(w: &mut [u32], j: usize, p: usize, f: usize)
    requires { ((2048 ≤ length w.old) × (j < 256)) × ((p ≤ j) × (f ≤ j)) }
    ensures { w.new ≡ put_near j p f w.old }
{
    let x = w[sharing::COMMON + p];
    w[j] = p as u32;
    w[sharing::SHARED + j] = x;
    w[FIRSTS + j] = f as u32;
}

// The nearest line of line j, whose text stands first at line f.
pub fn near_of(w: &[u32], j: usize, f: usize) -> usize
    requires { ((2048 ≤ length w.now) × (j < 256)) × (f ≤ j) }
    ensures { Nearby j f result }
{
    if f < j {
        return f;
    }
    nearest(w, j)
}

// Line j is entered.
pub fn enter<'s, 'w>(old: &View<'s, 'w>, new: &View<'s, 'w>, w: &mut [u32], j: usize)
    requires { Enterable old.now new.now j w.old }
    ensures { Entered (lines_in old.now new.now) j w.old w.new }
{
    let f = first_of(old, new, w, j);
    let p = near_of(w, j, f);
    put_near(w, j, p, f);
}

// All lines of both, `count` of them.
pub fn write_firsts<'s, 'w>(old: &View<'s, 'w>, new: &View<'s, 'w>, w: &mut [u32], count: usize)
    requires { Counted old.now new.now count w.old }
    ensures { FirstsWritten (lines_in old.now new.now) count w.old w.new }
{
    for j in 0..count {
        enter(old, new, w, j);
    }
}
