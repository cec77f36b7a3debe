// What stands round the element: the byte order mark, the XML declaration, white space and comments.
ghost use Rattle.std.specs.Prelude.{◌≡◌, ◌≤◌, length, drop};
ghost use Rattle.documents.specs.Parts.{order_mark, prolog, is_aside, aside, asides};
ghost use Rattle.markup.specs.Places.{Within, place_of, read_at, declaration};

use crate::answers::Fault;
use crate::{answers, attributes, chars, comments, words};

// The place behind the byte order mark at the start, if there is one.
pub fn order_mark(s: &[u8]) -> usize
    ensures within { Within s.now 0 result }
    ensures exact { Ok result ≡ read_at order_mark s.now 0 }
{
    words::word(s, 0, b"\xEF\xBB\xBF").unwrap_or(0)
}

// What follows `<?xml` of the XML declaration at `at`, its faults where they are met.
pub fn declared(s: &[u8], at: usize) -> Result<usize, Fault>
    requires { at ≤ length s.now }
    ensures within { Within s.now at (place_of result) }
    ensures exact { result ≡ read_at declaration s.now at }
{
    let a = attributes::all_of(s, at)?;
    let w = words::white(s, a);
    words::word(s, w, b"?>")
}

// The XML declaration at `at`, if there is one.
pub fn prolog(s: &[u8], at: usize) -> Result<usize, Fault>
    requires { at ≤ length s.now }
    ensures within { Within s.now at (place_of result) }
    ensures exact { result ≡ read_at prolog s.now at }
{
    let Ok(n) = words::word(s, at, b"<?xml") else {
        return Ok(at);
    };
    answers::blame(declared(s, n), at, s.len())
}

// Whether white space or a comment stands at `at`.
pub fn is_aside(s: &[u8], at: usize) -> bool
    requires { at ≤ length s.now }
    ensures { result ≡ is_aside (drop at s.now) }
{
    at < s.len() && (chars::is_white(s[at]) || words::is_comment(s, at))
}

// White space or a comment at `at`.
pub fn aside(s: &[u8], at: usize) -> Result<usize, Fault>
    requires { at ≤ length s.now }
    ensures within { Within s.now at (place_of result) }
    ensures exact { result ≡ read_at aside s.now at }
{
    if at < s.len() && chars::is_white(s[at]) {
        return Ok(at + 1);
    }
    comments::comment(s, at)
}

// White space and comments from `at` on.
pub fn asides(s: &[u8], at: usize) -> Result<usize, Fault>
    requires { at ≤ length s.now }
    ensures within { Within s.now at (place_of result) }
    ensures exact { result ≡ read_at asides s.now at }
{
    let mut n = at;
    // Kept: a turn goes on behind what it read. One function over this loop and that of `attributes::all_of` would take the test and the reader as closures, and a clause for each and for its ending.
    while is_aside(s, n) {
        n = aside(s, n)?;
    }
    Ok(n)
}
