// The letters of a text up to the next tag, gathered into a lent buffer without the white space at both ends. What doesn't fit is not written, and counted all the same.
ghost use Rattle.std.specs.Prelude.{◌≡◌, [], ◌-◌, ◌≤◌, ◌<◌, length, take, IfOk};
ghost use Rattle.documents.specs.Parts.{letters, trimmed};
ghost use Rattle.markup.specs.Places.{Within, place_of, read_as, read_or};
ghost use Rattle.markup.specs.Gatherings.{keeps, keep_one};
ghost use Rattle.markup.specs.Tallies.{tally, tallied, taken_at, taken_tally, gathered, gathered_at};

use crate::answers::Fault;
use crate::{chars, comments, letters, words};
use writing;

// How many letters are kept, from the first on that is no white space, and how many up to the last that is none.
#[derive(Clone, Copy)]
pub struct Kept {
    pub kept: usize,
    pub size: usize,
}

// What is kept, and the place behind what was read.
#[derive(Clone, Copy)]
pub struct Taken {
    pub kept: Kept,
    pub next: usize,
}

// How many bytes were gathered, and the place behind what was read.
#[derive(Clone, Copy)]
pub struct Gathered {
    pub len: usize,
    pub next: usize,
}

// One letter more.
pub fn keep(out: &mut [u8], k: Kept, b: u8) -> Kept
    requires { k.kept < 65536 }
    ensures { tally result out.new ≡ keeps (tally k out.old) b }
{
    let w = chars::is_white(b);
    if k.kept == 0 && w {
        return k;
    }
    writing::store(out, k.kept, b);
    let kept = k.kept + 1;
    Kept {
        kept,
        size: if w { k.size } else { kept },
    }
}

// A letter or a comment at `at`.
pub fn take_one(s: &[u8], at: usize, here: usize, out: &mut [u8], k: Kept) -> Result<Taken, Fault>
    requires { (at ≤ length s.now) × (here ≤ at) × (k.kept < 65536) }
    ensures within { Within s.now here (place_of (taken_at result)) }
    ensures exact { taken_tally result out.new ≡ read_as tallied (keep_one (length s.now - here) (tally k out.old)) s.now at }
{
    if words::is_tag(s, at) {
        let next = comments::comment(s, at)?;
        return Ok(Taken { kept: k, next });
    }
    let l = letters::letter(s, at, here)?;
    let kept = keep(out, k, l.byte);
    Ok(Taken { kept, next: l.next })
}

// The letters from `at` on, up to the next tag, into out.
pub fn gather(s: &[u8], at: usize, here: usize, out: &mut [u8]) -> Result<Gathered, Fault>
    requires { (at ≤ length s.now) × (here ≤ at) × (length s.now ≤ 65536) }
    ensures within { Within s.now here (place_of (gathered_at result)) }
    ensures exact { result ≡ read_as gathered (letters (length s.now - here)) s.now at }
    ensures text { IfOk result (λ g. g.len ≤ length out.new → take g.len out.new ≡ trimmed (read_or [] (letters (length s.now - here)) s.now at)) }
    ensures kept { length out.new ≡ length out.old }
{
    let mut n = at;
    let mut k = Kept { kept: 0, size: 0 };
    // Kept: a byte that stands for itself is kept here, and not by `take_one`, by which a byte of text takes 41 instructions and not 18.
    while words::goes_on(s, n) {
        let b = s[n];
        if chars::is_plain(b) {
            k = keep(out, k, b);
            n += 1;
        } else {
            let t = take_one(s, n, here, out, k)?;
            n = t.next;
            k = t.kept;
        }
    }
    Ok(Gathered {
        len: k.size,
        next: n,
    })
}
