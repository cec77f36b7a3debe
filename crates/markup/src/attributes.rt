// The attributes of a tag.
ghost use Rattle.std.specs.Prelude.{◌≡◌, ◌≤◌, length, drop};
ghost use Rattle.documents.specs.Parts.{quote_mark, value, quoted, is_attribute, attribute, attributes};
ghost use Rattle.markup.specs.Places.{Within, place_of, read_at};

use crate::answers::Fault;
use crate::{chars, letters, words};

// What stands from `at` on in the quotes q.
pub fn value(s: &[u8], at: usize, q: u8) -> Result<usize, Fault>
    requires { at ≤ length s.now }
    ensures within { Within s.now at (place_of result) }
    ensures exact { result ≡ read_at (value q) s.now at }
{
    let mut n = at;
    // Kept: a byte that stands for itself is passed here, and not by `letter`, by which a byte of an attribute takes 26 instructions and not 17.
    while n < s.len() && s[n] != q {
        if chars::is_plain(s[n]) {
            n += 1;
        } else {
            n = letters::letter(s, n, n)?.next;
        }
    }
    Ok(n)
}

// A quote at `at`.
pub fn quote(s: &[u8], at: usize) -> Result<usize, Fault>
    requires { at ≤ length s.now }
    ensures within { Within s.now at (place_of result) }
    ensures exact { result ≡ read_at quote_mark s.now at }
{
    words::one(s, at, chars::is_quote)
}

// A value in quotes at `at`.
pub fn quoted(s: &[u8], at: usize) -> Result<usize, Fault>
    requires { at ≤ length s.now }
    ensures within { Within s.now at (place_of result) }
    ensures exact { result ≡ read_at quoted s.now at }
{
    let a = quote(s, at)?;
    let q = s[at];
    let e = value(s, a, q)?;
    words::byte(s, e, q)
}

// An attribute at `at`: white space, a name, `=` and a value.
pub fn attribute(s: &[u8], at: usize) -> Result<usize, Fault>
    requires { at ≤ length s.now }
    ensures within { Within s.now at (place_of result) }
    ensures exact { result ≡ read_at attribute s.now at }
{
    let a = words::white(s, at);
    let n = words::name(s, a)?;
    let b = words::white(s, n);
    let e = words::byte(s, b, b'=')?;
    let c = words::white(s, e);
    quoted(s, c)
}

// Whether one more attribute follows at `at`: white space and the start of a name.
pub fn is_attribute(s: &[u8], at: usize) -> bool
    requires { at ≤ length s.now }
    ensures { result ≡ is_attribute (drop at s.now) }
{
    if at == s.len() || !chars::is_white(s[at]) {
        return false;
    }
    let n = words::white(s, at);
    n < s.len() && chars::is_name_start(s[n])
}

// The attributes from `at` on.
pub fn all_of(s: &[u8], at: usize) -> Result<usize, Fault>
    requires { at ≤ length s.now }
    ensures within { Within s.now at (place_of result) }
    ensures exact { result ≡ read_at attributes s.now at }
{
    let mut n = at;
    // Kept: a turn goes on behind what it read; `around::asides` says why the two loops are not one function.
    while is_attribute(s, n) {
        n = attribute(s, n)?;
    }
    Ok(n)
}
