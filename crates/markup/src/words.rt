// Words, names and white space from a place on; and what stands at a place.
ghost use Rattle.std.specs.Prelude.{◌≡◌, [], ◌∷◌, ◌≤◌, ◌<◌, ℕ, Bool, eqb, length, drop};
ghost use Rattle.text.specs.Texts.{bytes, starts_with};
ghost use Rattle.documents.specs.Chars.{is_white, is_plain, is_name_byte, next, after};
ghost use Rattle.documents.specs.Parts.{word, name, ends, goes_on};
ghost use Rattle.markup.specs.Places.{Within, place_of, read_at, one_at};

use crate::answers::Fault;
use crate::chars;

// The place behind the bytes at `at` that are of a kind.
pub fn past<F: Fn(u8) -> bool>(s: &[u8], at: usize, kind: F) -> usize
    requires place { at ≤ length s.now }
    requires callable { F.IsAlwaysCallable kind }
    ensures within { Within s.now at result }
    ensures exact { (p : ℕ → Bool) → ((b : ℕ) (r : Bool) → b < 256 → F.post kind b r → r ≡ p b) → drop result s.now ≡ after p (drop at s.now) }
{
    for n in at..s.len() {
        if !kind(s[n]) {
            return n;
        }
    }
    s.len()
}

// The place behind the white space at `at`.
// Kept: `is_white` again by `==`, of which one test of a set of bits is made; by `matches!` a line feed takes a branch more, and what is no white space three.
#[tactic(auto, unfolding(documents::specs::Chars::is_white))]
pub fn white(s: &[u8], at: usize) -> usize
    requires { at ≤ length s.now }
    ensures within { Within s.now at result }
    ensures exact { drop result s.now ≡ after is_white (drop at s.now) }
{
    past(
        s,
        at,
        |b| b == b' ' || b == b'\t' || b == b'\n' || b == b'\r',
    )
}

// The place behind the bytes at `at` that stand for themselves in a text.
pub fn plain_end(s: &[u8], at: usize) -> usize
    requires { at ≤ length s.now }
    ensures within { Within s.now at result }
    ensures exact { drop result s.now ≡ after is_plain (drop at s.now) }
{
    past(s, at, chars::is_plain)
}

// The bytes of w, from `at` on.
pub fn word(s: &[u8], at: usize, w: &[u8]) -> Result<usize, Fault>
    requires { at ≤ length s.now }
    ensures within { Within s.now at (place_of result) }
    ensures exact { result ≡ read_at (word w.now) s.now at }
{
    let mut n = at;
    for b in w {
        n = byte(s, n, *b)?;
    }
    Ok(n)
}

// The byte at `at`, if it is of a kind.
pub fn one<F: Fn(u8) -> bool>(s: &[u8], at: usize, kind: F) -> Result<usize, Fault>
    requires place { at ≤ length s.now }
    requires callable { F.IsAlwaysCallable kind }
    ensures within { Within s.now at (place_of result) }
    ensures exact { (p : ℕ → Bool) → ((b : ℕ) (r : Bool) → b < 256 → F.post kind b r → r ≡ p b) → result ≡ one_at p s.now at }
{
    if at < s.len() && kind(s[at]) {
        return Ok(at + 1);
    }
    Err(Fault::malformed(at))
}

// The byte b at `at`.
pub fn byte(s: &[u8], at: usize, b: u8) -> Result<usize, Fault>
    requires { at ≤ length s.now }
    ensures within { Within s.now at (place_of result) }
    ensures exact { result ≡ read_at (word (b ∷ [])) s.now at }
{
    one(s, at, |x| x == b)
}

// The place behind the bytes of a name at `at`.
// Kept: its loop by itself; compiled into that of the attributes it counts three numbers at each byte, two of them for the white space behind the name.
#[inline(never)]
pub fn name_end(s: &[u8], at: usize) -> usize
    requires { at ≤ length s.now }
    ensures within { Within s.now at result }
    ensures exact { drop result s.now ≡ after is_name_byte (drop at s.now) }
{
    past(s, at, chars::is_name_byte)
}

// A name at `at`.
pub fn name(s: &[u8], at: usize) -> Result<usize, Fault>
    requires { at ≤ length s.now }
    ensures within { Within s.now at (place_of result) }
    ensures exact { result ≡ read_at name s.now at }
{
    if at < s.len() && chars::is_name_start(s[at]) {
        return Ok(name_end(s, at));
    }
    Err(Fault::malformed(at))
}

// Whether `<` stands at `at`.
pub fn is_tag(s: &[u8], at: usize) -> bool
    ensures { result ≡ next (eqb 60) (drop at s.now) }
{
    at < s.len() && s[at] == b'<'
}

// Whether a comment begins at `at`.
pub fn is_comment(s: &[u8], at: usize) -> bool
    requires { at ≤ length s.now }
    ensures { result ≡ starts_with (bytes "<!--") (drop at s.now) }
{
    word(s, at, b"<!--").is_ok()
}

// Whether a content is over at `at`.
pub fn is_end(s: &[u8], at: usize) -> bool
    requires { at ≤ length s.now }
    ensures { result ≡ ends (drop at s.now) }
{
    at == s.len() || word(s, at, b"</").is_ok()
}

// Whether one more letter or comment follows at `at`.
pub fn goes_on(s: &[u8], at: usize) -> bool
    requires { at ≤ length s.now }
    ensures { result ≡ goes_on (drop at s.now) }
{
    at < s.len() && (s[at] != b'<' || is_comment(s, at))
}
