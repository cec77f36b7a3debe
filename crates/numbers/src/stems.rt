// The stems: for each `pattern` line of both views, new's and then old's, and for `/`filler, its sort and its best line in old and in new. Which lines have
// one text is told by the numbers of their first lines, which stand where the sorts are written.
ghost use Rattle.std.specs.Prelude.{ℕ, ◌≡◌, true, Some, [], ◌++◌, ◌+◌, ◌*◌, ◌≤◌, ◌<◌, length, get_or};
ghost use Rattle.names.specs.Patterns.{default, kind_of, is_permitted};
ghost use Rattle.reading.specs.Views.{texts, ProperView};
ghost use Rattle.grants.specs.Scratch.{sort_of, stem_best};
ghost use Rattle.numbers.specs.Stemming.{is_firm_text, soft_best, BestSought, Spottable, SpotIs, Fresh, FreshIs, Stemmable, put_stem, last_stem, StemOf, StemsLent, StemsWritten, FirstsLent, AllStems};

use crate::searching;
use firsts::lines;
use grants::scratch;
use reading::held::View;
use text::texts;

// What is written of a stem.
// Kept: numbers, and no enum, Option or bool: as they stand in the scratch, whose memory is fixed; `sort_of` and `best_number` of grants' definitions say which.
#[derive(Clone, Copy)]
pub struct Stem {
    pub sort: u32,
    pub in_old: u32,
    pub in_new: u32,
}

// The line of a text in both views.
#[derive(Clone, Copy)]
pub struct Spot {
    pub in_old: Option<usize>,
    pub in_new: Option<usize>,
}

// Whether a text is an exact one or a prefix.
pub fn is_firm(text: &[u8]) -> bool
    ensures { result ≡ is_firm_text text.now }
{
    text.is_empty() || !texts::are_same(text, b"/") && texts::starts_with(b"/", text)
}

// Line k, firm.
pub fn own_best(k: usize) -> u32
    requires { k ≤ 128 }
    ensures { result ≡ 2 * (k + 1) + 1 }
{
    2 * (k as u32 + 1) + 1
}

// The best line of the stem of an extension that is line k, or of `/`: the root's where that is firm, else the extension's own where there is one.
pub fn soft_best(text: &[u8], k: Option<usize>, root: u32) -> u32
    requires { (j : ℕ) → k ≡ Some j → j ≤ 128 }
    ensures { result ≡ soft_best text.now k root }
{
    if root % 2 == 1 || texts::are_same(text, b"/") {
        return root;
    }
    match k {
        Some(k) => 2 * (k as u32 + 1),
        None => root,
    }
}

// The best line of the stem of a text in a view where the text is line k, and the best line of `/`filler is `root`.
pub fn best_at(view: &View, text: &[u8], k: Option<usize>, root: u32) -> u32
    requires { BestSought view.now text.now k root }
    ensures { result ≡ stem_best (texts view.now) (kind_of text.now) }
{
    if !is_firm(text) {
        return soft_best(text, k, root);
    }
    match k {
        Some(k) => own_best(k),
        None => searching::best_number(searching::strongest_at(view, text)),
    }
}

// The best line of `/`filler.
pub fn last_best(view: &View) -> u32
    requires { ProperView view.now }
    ensures { result ≡ stem_best (texts view.now) default }
{
    searching::best_number(searching::strongest_below(view, b""))
}

// 1: one path; 2: a path, then with each extension behind it; 3: one path, and an extension.
pub fn sort_of(text: &[u8]) -> u32
    requires { is_permitted (kind_of text.now) ≡ true }
    ensures { result ≡ sort_of (kind_of text.now) }
{
    if texts::starts_with(b"*.", text) {
        return 3;
    }
    if !texts::starts_with(b"/", text) {
        return 1;
    }
    if texts::ends_with(b"/*", text) {
        return 2;
    }
    1
}

// Where a text stands whose first line of both is f.
pub fn spot_of(old: &View, new: &View, firsts: &[u32], text: &[u8], f: u32) -> Spot
    requires { Spottable old.now new.now firsts.now text.now f }
    ensures { SpotIs (texts old.now) (texts new.now) text.now result }
{
    let n = new.pattern_count();
    let first = f as usize;
    if n <= first {
        return Spot {
            in_old: Some(first - n),
            in_new: None,
        };
    }
    Spot {
        in_old: searching::line_of(old, &firsts[n..n + 128], text, f),
        in_new: Some(first),
    }
}

// The stem of a text that stands nowhere before.
pub fn stem_of(old: &View, new: &View, text: &[u8], spot: Spot, last: Stem) -> Stem
    requires { Fresh old.now new.now text.now spot last }
    ensures { FreshIs (texts old.now) (texts new.now) text.now result }
{
    Stem {
        sort: sort_of(text),
        in_old: best_at(old, text, spot.in_old, last.in_old),
        in_new: best_at(new, text, spot.in_new, last.in_new),
    }
}

// The stem of line j of both.
pub fn stem_at<'s, 'w>(
    old: &View<'s, 'w>,
    new: &View<'s, 'w>,
    firsts: &[u32],
    last: Stem,
    j: usize,
) -> Stem
    requires { Stemmable old.now new.now firsts.now last j }
    ensures { StemOf (texts old.now) (texts new.now) j result }
{
    let f = firsts[j];
    if (f as usize) < j {
        return Stem {
            sort: 0,
            in_old: 0,
            in_new: 0,
        };
    }
    let text = lines::line_text(old, new, j);
    let spot = spot_of(old, new, firsts, text, f);
    stem_of(old, new, text, spot, last)
}

// Stem j is written into the scratch.
pub fn put_stem(w: &mut [u32], j: usize, x: Stem)
    requires { (2048 ≤ length w.old) × (j ≤ 256) }
    ensures { w.new ≡ put_stem j x w.old }
{
    w[scratch::IN_OLD + j] = x.in_old;
    w[scratch::IN_NEW + j] = x.in_new;
    w[scratch::SORTS + j] = x.sort;
}

// The stems of all lines, `count` of them; the last stem stands behind them.
pub fn fill_stems<'s, 'w>(
    old: &View<'s, 'w>,
    new: &View<'s, 'w>,
    w: &mut [u32],
    count: usize,
    last: Stem,
)
    requires { StemsLent old.now new.now count last w.old }
    ensures { StemsWritten (texts old.now) (texts new.now) count w.old w.new }
{
    for j in 0..count {
        let x = stem_at(old, new, &w[scratch::SORTS..scratch::SORTS + 257], last, j);
        put_stem(w, j, x);
    }
}

// The last stem.
pub fn last_stem(old: &View, new: &View) -> Stem
    requires { ProperView old.now × ProperView new.now }
    ensures { result ≡ last_stem (texts old.now) (texts new.now) }
{
    Stem {
        sort: 1,
        in_old: last_best(old),
        in_new: last_best(new),
    }
}

// All stems; there are `count` lines.
pub fn write_stems<'s, 'w>(old: &View<'s, 'w>, new: &View<'s, 'w>, w: &mut [u32], count: usize)
    requires { FirstsLent old.now new.now count w.old }
    ensures { AllStems (texts old.now) (texts new.now) w.old w.new }
{
    let x = last_stem(old, new);
    put_stem(w, count, x);
    fill_stems(old, new, w, count, x);
}
