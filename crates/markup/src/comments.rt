// Comments.
ghost use Rattle.std.specs.Prelude.{◌≡◌, false, ◌≤◌, length};
ghost use Rattle.documents.specs.Parts.{remark, comment};
ghost use Rattle.markup.specs.Places.{Within, place_of, read_at, note_text};

use crate::answers::Fault;
use crate::{answers, chars, words};

// The rest of a comment from `at` on.
pub fn remark(s: &[u8], at: usize) -> Result<usize, Fault>
    requires { at ≤ length s.now }
    ensures within { Within s.now at (place_of result) }
    ensures exact { result ≡ read_at (remark false) s.now at }
{
    let mut dash = false;
    for n in at..s.len() {
        let b = s[n];
        if b == b'-' {
            if dash {
                return words::byte(s, n + 1, b'>');
            }
            dash = true;
        } else if chars::is_char(b) {
            dash = false;
        } else {
            return Err(Fault::malformed(n));
        }
    }
    Err(Fault::malformed(s.len()))
}

// A comment at `at`, its faults where they are met.
pub fn noted(s: &[u8], at: usize) -> Result<usize, Fault>
    requires { at ≤ length s.now }
    ensures within { Within s.now at (place_of result) }
    ensures exact { result ≡ read_at note_text s.now at }
{
    let n = words::word(s, at, b"<!--")?;
    remark(s, n)
}

// A comment at `at`.
pub fn comment(s: &[u8], at: usize) -> Result<usize, Fault>
    requires { at ≤ length s.now }
    ensures within { Within s.now at (place_of result) }
    ensures exact { result ≡ read_at comment s.now at }
{
    answers::blame(noted(s, at), at, s.len())
}
