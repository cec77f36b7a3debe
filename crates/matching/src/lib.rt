// A path without its parameters; whether a pattern text matches a path, how strongly, and which of several does most strongly. The crate `decisions` says what a match is.
#![tactic(auto)]

ghost use Rattle.std.specs.Prelude.{◌≡◌, ◌+◌, ◌≤◌, ◌<◌, length, take};
ghost use Rattle.decisions.specs.Matching.{is_under};
ghost use Rattle.decisions.specs.Paths.{is_dropped, dropped};
ghost use Rattle.decisions.specs.Requests.{is_path};
ghost use Rattle.matching.specs.Strengths.{Ends, strength, rooted_strength, starred_strength, lead_by, lead};

use text::texts;

// Whether p is a path: 1 to 1,024 text bytes, the first '/'.
#[tactic(auto, unfolding(decisions::specs::Requests::is_path))]
pub fn is_path(p: &[u8]) -> bool
    ensures { result ≡ is_path p.now }
{
    (1..=1024).contains(&p.len()) && texts::all_text(p) && texts::starts_with(b"/", p)
}

// Whether a byte of a path is dropped: no '/', and a ';' or behind one of its segment.
pub fn is_dropped(behind: bool, b: u8) -> bool
    ensures { result ≡ is_dropped behind b }
{
    (b != b'/') & (behind | (b == b';'))
}

// Puts the path without its parameters at the start of out, and hands back how many bytes that is.
pub fn drop_into(out: &mut [u8], path: &[u8]) -> usize
    requires { (length path.now ≤ 1024) × (1024 ≤ length out.old) }
    ensures size { result ≤ 1024 }
    ensures bytes { take result out.new ≡ dropped path.now }
    ensures kept { length out.new ≡ length out.old }
{
    let mut behind = false;
    let mut n = 0;
    for b in path {
        out[n] = *b;
        behind = is_dropped(behind, *b);
        n += usize::from(!behind);
    }
    n
}

// How a path ends: the offset of what follows the last '.' of its last segment, or of that segment where it has none.
#[derive(Clone, Copy)]
pub enum Ending {
    Extension(usize),
    Segment(usize),
}

// The ending of a path, sought from its end.
pub fn ending_of(path: &[u8]) -> Ending
    ensures { Ends path.now result }
{
    for i in (0..path.len()).rev() {
        match path[i] {
            b'.' => return Ending::Extension(i + 1),
            b'/' => return Ending::Segment(i + 1),
            _ => {}
        }
    }
    Ending::Segment(0)
}

// Whether the path is p, or starts with p followed by '/'.
pub fn is_under(p: &[u8], path: &[u8]) -> bool
    ensures { result ≡ is_under p.now path.now }
{
    let Some(rest) = path.strip_prefix(p) else {
        return false;
    };
    rest.is_empty() || rest[0] == b'/'
}

// How strongly a pattern text that starts with '/' and is longer matches the path.
pub fn rooted_strength(t: &[u8], path: &[u8]) -> u32
    requires { length t.now ≤ 255 }
    ensures { result ≡ rooted_strength t.now path.now }
{
    if let Some(stem) = t.strip_suffix(b"/*") {
        return if is_under(stem, path) {
            3 + stem.len() as u32
        } else {
            0
        };
    }
    if texts::are_same(t, path) { 1000 } else { 0 }
}

// How strongly a pattern text that is not empty and does not start with '/' matches the path, whose ending is x.
pub fn starred_strength(t: &[u8], path: &[u8], x: Ending) -> u32
    requires { Ends path.now x }
    ensures { result ≡ starred_strength t.now path.now }
{
    let Ending::Extension(at) = x else {
        return 0;
    };
    let Some(e) = t.strip_prefix(b"*.") else {
        return 0;
    };
    if texts::are_alike(&path[at..], e) && names::is_extension(e) {
        return 2;
    }
    0
}

// How strongly a pattern text matches the path, whose ending is x: 0 not at all, 1 as the default, 2 by extension, 3 and more by a
// prefix, the longer the stronger, 1,000 exactly.
// Kept: the numbers are what `strength`, `kind_strength` and `kind_strength_lem` speak of, and `numbers` and `grants` with them.
pub fn strength_of(t: &[u8], path: &[u8], x: Ending) -> u32
    requires { (length t.now ≤ 255) × Ends path.now x }
    ensures { result ≡ strength t.now path.now }
{
    if t.is_empty() {
        return if texts::are_same(b"/", path) { 1000 } else { 0 };
    }
    if texts::are_same(t, b"/") {
        return 1;
    }
    if texts::starts_with(b"/", t) {
        return rooted_strength(t, path);
    }
    starred_strength(t, path, x)
}

// While the patterns are gone through: how many are, the line of the first of the strongest, and its strength, 0 where none matches.
#[derive(Clone, Copy)]
pub struct Leading {
    pub seen: usize,
    pub at: usize,
    pub most: u32,
}

impl Leading {
    // The choice with one pattern more, of that strength.
    pub fn with(self, strength: u32) -> Leading
        requires { self.seen < 1000 }
        ensures { result ≡ lead_by self strength }
    {
        let seen = self.seen + 1;
        if self.most < strength {
            return Leading {
                seen,
                at: self.seen,
                most: strength,
            };
        }
        Leading { seen, ..self }
    }
}

// The choice with one pattern more, for a path whose ending is e.
#[tactic(auto, unfolding(crate::specs::Strengths::lead))]
pub fn lead_with(x: Leading, p: &[u8], path: &[u8], e: Ending) -> Leading
    requires { (x.seen < 1000) × ((length p.now ≤ 255) × Ends path.now e) }
    ensures { result ≡ lead path.now x p.now }
{
    x.with(strength_of(p, path, e))
}
