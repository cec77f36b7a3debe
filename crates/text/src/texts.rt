// Texts compared and scanned.
ghost use Rattle.std.specs.Prelude.{◌≡◌, true, ◌+◌, ◌≤◌, ◌<◌, length, drop};
ghost use Rattle.text.specs.Texts.{same, has, all, starts_with, ends_with, part, bytes};
ghost use Rattle.text.specs.Bytes.{is_text, is_token};
ghost use Rattle.text.specs.Lines.{to_field_end};

use crate::bytes;

// Whether t and u are the same bytes.
pub fn are_same(t: &[u8], u: &[u8]) -> bool
    ensures { result ≡ same t.now u.now }
{
    t == u
}

// Whether t and u, of one length, are the same bytes. Every byte is looked at: where the length is a constant, the compiler makes a few instructions of that.
#[inline(always)]
fn all_same(t: &[u8], u: &[u8]) -> bool
    requires { length t.now ≡ length u.now }
    ensures { result ≡ same t.now u.now }
{
    let mut alike = true;
    for i in 0..t.len() {
        alike &= t[i] == u[i];
    }
    alike
}

// The same where they have n to 2n bytes: the first n and the last n, which may have bytes in common, are all.
#[inline(always)]
fn ends_same(t: &[u8], u: &[u8], n: usize) -> bool
    requires { (length t.now ≡ length u.now) × ((n ≤ length t.now) × (length t.now ≤ n + n)) }
    ensures { result ≡ same t.now u.now }
{
    let last = t.len() - n;
    all_same(&t[..n], &u[..n]) & all_same(&t[last..], &u[last..])
}

// The same where they have fewer than 32 bytes.
#[inline(always)]
fn few_same(t: &[u8], u: &[u8]) -> bool
    requires { (length t.now ≡ length u.now) × (length t.now < 32) }
    ensures { result ≡ same t.now u.now }
{
    let n = t.len();
    if 16 <= n {
        return ends_same(t, u, 16);
    }
    if 8 <= n {
        return ends_same(t, u, 8);
    }
    if 4 <= n {
        return ends_same(t, u, 4);
    }
    are_same(t, u)
}

// Whether t and u are the same bytes, 32 of them looked at at once, the last ones first: for texts that are long, and begin and end alike.
// Kept: for speed, beside `are_same`, whose `==` looks at 4 bytes and then calls a function that goes on from the front: with that alone comparing two listings takes up to half as many instructions again.
pub fn are_alike(t: &[u8], u: &[u8]) -> bool
    ensures { result ≡ same t.now u.now }
{
    let n = t.len();
    if n != u.len() {
        return false;
    }
    if n < 32 {
        return few_same(t, u);
    }
    for i in 0..(n - 1) / 32 {
        let end = n - 32 * i;
        if !all_same(&t[end - 32..end], &u[end - 32..end]) {
            return false;
        }
    }
    all_same(&t[..32], &u[..32])
}

// Whether t has the byte b.
pub fn has_byte(b: u8, t: &[u8]) -> bool
    ensures { result ≡ has b t.now }
{
    t.contains(&b)
}

// Whether t starts with the prefix p. By `==`, which is compiled in where p is a constant: the library's `starts_with` is called, 55 instructions for 20 where the first byte differs.
pub fn starts_with(p: &[u8], t: &[u8]) -> bool
    ensures { result ≡ starts_with p.now t.now }
{
    p.len() <= t.len() && are_same(p, &t[..p.len()])
}

// Whether t ends with e.
pub fn ends_with(e: &[u8], t: &[u8]) -> bool
    ensures { result ≡ ends_with e.now t.now }
{
    e.len() <= t.len() && are_same(&t[t.len() - e.len()..], e)
}

// Whether every byte of t is a text byte.
pub fn all_text(t: &[u8]) -> bool
    ensures { result ≡ all is_text t.now }
{
    t.iter().all(|b| bytes::is_text(*b))
}

// Whether every byte of t is a token byte.
pub fn all_token(t: &[u8]) -> bool
    ensures { result ≡ all is_token t.now }
{
    t.iter().all(|b| bytes::is_token(*b))
}

// An offset behind some text bytes of s that stand from `at` on, taken four at a time: a scan takes 888 instructions for 200 bytes then, and 1,430 one at a time.
pub fn past_text(s: &[u8], at: usize) -> usize
    ensures begun { at ≤ result }
    ensures ahead { at + to_field_end (drop at s.now) ≡ result + to_field_end (drop result s.now) }
    ensures clean { true ≡ all is_text (part at result s.now) }
{
    let Some(mut rest) = s.get(at..) else {
        return at;
    };
    while let Some((four, more)) = rest.split_first_chunk::<4>() {
        if !all_text(four) {
            break;
        }
        rest = more;
    }
    s.len() - rest.len()
}

// A field's end: the next tab or byte 10, or the end of the text; and whether its bytes are all text bytes.
#[derive(Clone, Copy)]
pub struct Scanned {
    pub end: usize,
    pub clean: bool,
}

// The field of s that begins at `at`.
pub fn scan(s: &[u8], at: usize) -> Scanned
    ensures end { result.end ≡ at + to_field_end (drop at s.now) }
    ensures clean { result.clean ≡ all is_text (part at result.end s.now) }
{
    let mut clean = true;
    for i in past_text(s, at)..s.len() {
        let b = s[i];
        if !bytes::is_text(b) {
            if b == b'\t' || b == b'\n' {
                return Scanned { end: i, clean };
            }
            clean = false;
        }
    }
    Scanned {
        end: s.len().max(at),
        clean,
    }
}
