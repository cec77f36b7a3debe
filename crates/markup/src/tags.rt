// The two tags of an element.
ghost use Rattle.std.specs.Prelude.{◌≡◌, ◌≤◌, length, IfOk};
ghost use Rattle.documents.specs.Parts.{tag_end, start_tag, end_tag, second_tag};
ghost use Rattle.markup.specs.Places.{Within, place_of, read_at, read_as, ended, ended_at, start_at, Opening, rest_of_tag, name_of_tag, whole_tag};

use crate::answers::{Ended, Fault, Start};
use crate::{answers, attributes, words};

// The end of a first tag at `at`: `>` or `/>`.
pub fn tag_end(s: &[u8], at: usize) -> Result<Ended, Fault>
    requires { at ≤ length s.now }
    ensures within { Within s.now at (place_of (ended_at result)) }
    ensures exact { result ≡ read_as ended tag_end s.now at }
{
    if let Ok(next) = words::byte(s, at, b'>') {
        return Ok(Ended { full: true, next });
    }
    let next = words::word(s, at, b"/>")?;
    Ok(Ended { full: false, next })
}

// What follows the name of a first tag at `at`: attributes, white space and its end.
pub fn rest(s: &[u8], at: usize) -> Result<Ended, Fault>
    requires { at ≤ length s.now }
    ensures within { Within s.now at (place_of (ended_at result)) }
    ensures exact { result ≡ read_as ended rest_of_tag s.now at }
{
    let a = attributes::all_of(s, at)?;
    let w = words::white(s, a);
    tag_end(s, w)
}

// A first tag at `at`, up to its name.
pub fn opening(s: &[u8], at: usize) -> Result<usize, Fault>
    requires { at ≤ length s.now }
    ensures within { Within s.now at (place_of result) }
    ensures exact { result ≡ read_at name_of_tag s.now at }
{
    let n = words::byte(s, at, b'<')?;
    words::name(s, n)
}

// A first tag at `at`, its faults where they are met.
pub fn first_tag(s: &[u8], at: usize) -> Result<Start, Fault>
    requires { at ≤ length s.now }
    ensures within { Within s.now at (place_of (start_at result)) }
    ensures exact { start_at result ≡ read_at whole_tag s.now at }
    ensures opened { IfOk result (Opening s.now at) }
{
    let end = opening(s, at)?;
    let e = rest(s, end)?;
    Ok(Start {
        end,
        full: e.full,
        next: e.next,
    })
}

// A first tag at `at`.
pub fn start_tag(s: &[u8], at: usize) -> Result<Start, Fault>
    requires { at ≤ length s.now }
    ensures within { Within s.now at (place_of (start_at result)) }
    ensures exact { start_at result ≡ read_at start_tag s.now at }
    ensures opened { IfOk result (Opening s.now at) }
{
    answers::blame(first_tag(s, at), at, s.len())
}

// The second tag of an element of that name at `at`, its faults where they are met.
pub fn end_tag(s: &[u8], at: usize, name: &[u8]) -> Result<usize, Fault>
    requires { at ≤ length s.now }
    ensures within { Within s.now at (place_of result) }
    ensures exact { result ≡ read_at (end_tag name.now) s.now at }
{
    let b = words::word(s, at, b"</")?;
    let n = words::word(s, b, name)?;
    let w = words::white(s, n);
    words::byte(s, w, b'>')
}

// The second tag of an element of that name at `at`.
pub fn second_tag(s: &[u8], at: usize, name: &[u8]) -> Result<usize, Fault>
    requires { at ≤ length s.now }
    ensures within { Within s.now at (place_of result) }
    ensures exact { result ≡ read_at (second_tag name.now) s.now at }
{
    answers::blame(end_tag(s, at, name), at, s.len())
}
