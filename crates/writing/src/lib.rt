// Bytes and numbers put into a lent buffer, clipped: what doesn't fit is not written, and the offset behind it is handed back all the same. So a text is measured by
// writing it into the empty part of a buffer, and written where it fits, by the same code.
#![tactic(auto)]

ghost use Rattle.std.specs.Prelude.{◌≡◌, ◌∷◌, ◌+◌, ◌≤◌, length, set};
ghost use Rattle.std.proofs.lemmas.List.Edits.{sets};
ghost use Rattle.writing.specs.Decimals.{digits};

// One byte, where there is room for it.
pub fn store(out: &mut [u8], at: usize, b: u8)
    ensures { out.new ≡ set out.old at b }
{
    if at < out.len() {
        out[at] = b;
    }
}

// A text, from an offset on; the offset behind it.
pub fn put(out: &mut [u8], at: usize, t: &[u8]) -> usize
    requires { (at ≤ 1000000) × (length t.now ≤ 1000000) }
    ensures offset { result ≡ at + length t.now }
    ensures bytes { out.new ≡ sets out.old at t.now }
{
    for (i, b) in t.iter().enumerate() {
        store(out, at + i, *b);
    }
    at + t.len()
}

// The last k decimal digits of n, from an offset on; the offset behind them.
pub fn put_digits(out: &mut [u8], at: usize, n: usize, k: usize) -> usize
    requires { (at ≤ 1000000) × (k ≤ 10) }
    ensures offset { result ≡ at + length (digits k n) }
    ensures bytes { out.new ≡ sets out.old at (digits k n) }
{
    if k == 0 {
        return at;
    }
    if n < 10 {
        store(out, at, b'0' + n as u8);
        return at + 1;
    }
    let e = put_digits(out, at, n / 10, k - 1);
    store(out, e, b'0' + (n % 10) as u8);
    e + 1
}

// A letter and the last five decimal digits of n, from an offset on; the offset behind them.
pub fn put_numbered(out: &mut [u8], at: usize, letter: u8, n: usize) -> usize
    requires { at ≤ 999999 }
    ensures offset { result ≡ at + length (letter ∷ digits 5 n) }
    ensures bytes { out.new ≡ sets out.old at (letter ∷ digits 5 n) }
{
    store(out, at, letter);
    put_digits(out, at + 1, n, 5)
}
