// Names looked for among those that are kept: by their stamps first, and only then by the text in the file.
ghost use Rattle.std.specs.Prelude.{◌≡◌, ◌+◌, ◌≤◌, ◌<◌, length, get_or};
ghost use Rattle.text.specs.Texts.{same, index_of};
ghost use Rattle.ledger.specs.Places.{text_at, stamp_of, name_at, names_at, Sought};

use markup::gathering;
use text::texts;

// The last byte of t and its length, as a number's last 14 digits hold them.
pub fn stamp(t: &[u8]) -> u32
    ensures is { result ≡ stamp_of t.now }
    ensures small { result < 16384 }
{
    match t {
        [.., last] => u32::from(*last) * 64 + (t.len() % 64) as u32,
        [] => 0,
    }
}

// Whether the text at that place of the file is t.
pub fn is_text_at(s: &[u8], at: usize, t: &[u8]) -> bool
    requires { Sought s.now t.now }
    ensures { result ≡ same (text_at s.now at) t.now }
{
    if s.len() < at {
        return false;
    }
    // Kept: fixed memory, no heap: a text has 255 bytes at most, and stands in the first `len` of these.
    let mut found = [0u8; 256];
    let Ok(g) = gathering::gather(s, at, at, &mut found) else {
        return false;
    };
    g.len == t.len() && texts::are_same(&found[..g.len], t)
}

// Whether x says the name t, whose stamp is `key`. With another stamp it does not, and the file is not looked at.
pub fn is_named(s: &[u8], x: u32, key: u32, t: &[u8]) -> bool
    requires { (key ≡ stamp_of t.now) × Sought s.now t.now }
    ensures { result ≡ same (name_at s.now x) t.now }
{
    if x % 16384 != key {
        return false;
    }
    is_text_at(s, (x / 16384) as usize, t)
}

// The place of t among the n names from `base` on, or n where it is none of them.
pub fn index(s: &[u8], w: &[u32], base: usize, n: usize, t: &[u8]) -> usize
    requires { (base + n ≤ length w.now) × Sought s.now t.now }
    ensures { result ≡ index_of t.now (names_at s.now base n w.now) }
{
    let key = stamp(t);
    for k in 0..n {
        if is_named(s, w[base + k], key, t) {
            return k;
        }
    }
    n
}

// The same among those that are counted at place c.
pub fn find(s: &[u8], w: &[u32], base: usize, c: usize, t: &[u8]) -> usize
    requires { (c < length w.now) × ((base + get_or w.now c 0 ≤ length w.now) × Sought s.now t.now) }
    ensures { result ≡ index_of t.now (names_at s.now base (get_or w.now c 0) w.now) }
{
    index(s, w, base, w[c] as usize, t)
}
