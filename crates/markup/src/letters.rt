// Bytes of text: each itself, or one of the five entities. A fault is put at `here`.
ghost use Rattle.std.specs.Prelude.{◌≡◌, ◌-◌, ◌≤◌, ◌<◌, length};
ghost use Rattle.documents.specs.Parts.{blamed, quote_entity, entity, letter_of};
ghost use Rattle.markup.specs.Places.{Within, place_of, read_as, letter, letter_at};

use crate::answers::{Fault, Letter};
use crate::{chars, words};

// `&quot;` or `&apos;` at `at`.
pub fn quote_entity(s: &[u8], at: usize, here: usize) -> Result<Letter, Fault>
    requires { (at < length s.now) × (here ≤ at) }
    ensures within { Within s.now here (place_of (letter_at result)) }
    ensures exact { result ≡ read_as letter (blamed (length s.now - here) quote_entity) s.now at }
{
    if let Ok(next) = words::word(s, at, b"&quot;") {
        return Ok(Letter { byte: b'"', next });
    }
    if let Ok(next) = words::word(s, at, b"&apos;") {
        return Ok(Letter { byte: b'\'', next });
    }
    Err(Fault::malformed(here))
}

// One of the five entities at `at`.
pub fn entity(s: &[u8], at: usize, here: usize) -> Result<Letter, Fault>
    requires { (at < length s.now) × (here ≤ at) }
    ensures within { Within s.now here (place_of (letter_at result)) }
    ensures exact { result ≡ read_as letter (blamed (length s.now - here) entity) s.now at }
{
    if let Ok(next) = words::word(s, at, b"&lt;") {
        return Ok(Letter { byte: b'<', next });
    }
    if let Ok(next) = words::word(s, at, b"&gt;") {
        return Ok(Letter { byte: b'>', next });
    }
    if let Ok(next) = words::word(s, at, b"&amp;") {
        return Ok(Letter { byte: b'&', next });
    }
    quote_entity(s, at, here)
}

// A byte of text at `at`: itself, or an entity.
pub fn letter(s: &[u8], at: usize, here: usize) -> Result<Letter, Fault>
    requires { (at ≤ length s.now) × (here ≤ at) }
    ensures within { Within s.now here (place_of (letter_at result)) }
    ensures exact { result ≡ read_as letter (blamed (length s.now - here) letter_of) s.now at }
{
    if at == s.len() {
        return Err(Fault::malformed(at));
    }
    let byte = s[at];
    if chars::is_plain(byte) {
        return Ok(Letter { byte, next: at + 1 });
    }
    entity(s, at, here)
}
