// How strong a pattern text is at a stem, and the strongest of a view there. No path is written for that: first bytes and last bytes tell.
ghost use Rattle.std.specs.Prelude.{ℕ, ◌≡◌, ◌==◌, true, false, [], ◌++◌, ◌≤◌, ◌<◌, length, get_or};
ghost use Rattle.std.specs.List.{position};
ghost use Rattle.text.specs.Texts.{Text, bytes, same};
ghost use Rattle.names.specs.Patterns.{exact, prefix, kind_of};
ghost use Rattle.reading.specs.Views.{texts, ProperView};
ghost use Rattle.decisions.specs.Matching.{is_under};
ghost use Rattle.matching.specs.Strengths.{Ends};
ghost use Rattle.grants.specs.Scratch.{stem_strength, leading_by, best_number};
ghost use Rattle.numbers.specs.Stemming.{line_among, is_firm_text, Findable, Lacking};

use deciding::joining;
use matching::{Ending, Leading};
use reading::held::View;
use text::texts;

// Where a number first stands among others.
pub fn position_of(numbers: &[u32], x: u32) -> Option<usize>
    ensures { result ≡ position (λ y. y == x) numbers.now }
{
    numbers.iter().position(|y| *y == x)
}

// The line of a text among those of a view. The numbers of the first lines tell: that of the text is f.
pub fn line_of(view: &View, firsts: &[u32], text: &[u8], f: u32) -> Option<usize>
    requires { Findable view.now firsts.now text.now f }
    ensures { result ≡ line_among text.now (texts view.now) }
{
    position_of(&firsts[..view.pattern_count()], f)
}

// Whether the path is p, or starts with p followed by '/': as `matching::is_under`, with the byte behind p before all others.
// Kept: for speed. This is asked of each text at each stem, and `are_alike` alone takes 19 to 78 instructions on 165 bytes, the byte behind p a few.
pub fn is_above(p: &[u8], path: &[u8]) -> bool
    ensures { result ≡ is_under p.now path.now }
{
    let n = p.len();
    if path.len() <= n {
        return texts::are_alike(p, path);
    }
    path[n] == b'/' && texts::are_alike(p, &path[..n])
}

// How strong u is at P`/`filler.
pub fn below_strength(p: &[u8], u: &[u8]) -> u32
    requires { length u.now ≤ 255 }
    ensures { result ≡ stem_strength (prefix p.now) u.now }
{
    if !texts::starts_with(b"/", u) {
        return 0;
    }
    if texts::are_same(u, b"/") {
        return 1;
    }
    let Some(stem) = u.strip_suffix(b"/*") else {
        return 0;
    };
    if is_above(stem, p) {
        3 + stem.len() as u32
    } else {
        0
    }
}

// The same of a text that is not P`/*`: then only a shorter one can be.
pub fn above_strength(p: &[u8], u: &[u8]) -> u32
    requires { (length u.now ≤ 255) × (same u.now (p.now ++ bytes "/*") ≡ false) }
    ensures { result ≡ stem_strength (prefix p.now) u.now }
{
    if p.len() + 2 <= u.len() {
        return 0;
    }
    below_strength(p, u)
}

// How strong u, another text, is at the path of an exact one, whose ending is x.
pub fn exact_strength(u: &[u8], path: &[u8], x: Ending) -> u32
    requires { ((length u.now ≤ 255) × Ends path.now x) × ((same u.now path.now ≡ false) × (same path.now (bytes "/") ≡ false)) }
    ensures { result ≡ stem_strength (exact path.now) u.now }
{
    if texts::starts_with(b"/", u) {
        return below_strength(path, u);
    }
    matching::starred_strength(u, path, x)
}

// The strongest of a view by some strength.
pub fn strongest_by<F: Fn(&[u8]) -> u32>(view: &View, strength: F) -> Leading
    requires { (u : _) (k : ℕ) → k < length (texts view.now) → u.now ≡ get_or (texts view.now) k [] → F.pre strength u }
    ensures { (g : Text → ℕ) → ((u : _) (k r : ℕ) → k < length (texts view.now) → u.now ≡ get_or (texts view.now) k [] → F.post strength u r → r ≡ g u.now)
        → result ≡ leading_by g (texts view.now) }
{
    let mut x = Leading {
        seen: 0,
        at: 0,
        most: 0,
    };
    for k in 0..view.pattern_count() {
        x = x.with(strength(view.pattern(k)));
    }
    x
}

// The strongest of a view at P`/`filler.
pub fn strongest_below(view: &View, p: &[u8]) -> Leading
    requires { ProperView view.now }
    ensures { result ≡ leading_by (stem_strength (prefix p.now)) (texts view.now) }
{
    strongest_by(view, |u| below_strength(p, u))
}

// The same, where the view lacks P`/*`.
pub fn strongest_above(view: &View, p: &[u8]) -> Leading
    requires { Lacking view.now (p.now ++ bytes "/*") }
    ensures { result ≡ leading_by (stem_strength (prefix p.now)) (texts view.now) }
{
    strongest_by(view, |u| above_strength(p, u))
}

// The strongest of a view at the path of an exact text that it lacks.
pub fn strongest_exact(view: &View, path: &[u8]) -> Leading
    requires { Lacking view.now path.now × (same path.now (bytes "/") ≡ false) }
    ensures { result ≡ leading_by (stem_strength (exact path.now)) (texts view.now) }
{
    let ending = matching::ending_of(path);
    strongest_by(view, |u| exact_strength(u, path, ending))
}

// The strongest of a view at the stem of a text that it lacks, an exact one or a prefix.
pub fn strongest_at(view: &View, text: &[u8]) -> Leading
    requires { Lacking view.now text.now × (is_firm_text text.now ≡ true) }
    ensures { result ≡ leading_by (stem_strength (kind_of text.now)) (texts view.now) }
{
    if text.is_empty() {
        return joining::strongest(view, b"/");
    }
    if let Some(p) = text.strip_suffix(b"/*") {
        return strongest_above(view, p);
    }
    strongest_exact(view, text)
}

// What is written of the strongest: 0 where nothing matches, else twice its line from 1, and one more where it is firm.
// Kept: one number, since the scratch holds numbers in fixed memory, and `best_number` of grants' definitions says which.
pub fn best_number(x: Leading) -> u32
    requires { x.at < 1000 }
    ensures { result ≡ best_number x }
{
    if x.most == 0 {
        return 0;
    }
    2 * (x.at as u32 + 1) + u32::from(3 <= x.most)
}
