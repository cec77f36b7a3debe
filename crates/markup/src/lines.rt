// The line of a place.
ghost use Rattle.std.specs.Prelude.{◌≡◌, min, ◌-◌, ◌≤◌, ◌==◌, length, count_by};
ghost use Rattle.text.specs.Texts.{newline};
ghost use Rattle.markup.specs.Lines.{line_at};

// The place p, or the last byte's where that is behind it in a text of so many bytes.
pub fn place_in(p: usize, len: usize) -> usize
    ensures { result ≡ min p (len - 1) }
{
    p.min(len.saturating_sub(1))
}

// How many lines end in t.
pub fn ends_in(t: &[u8]) -> usize
    ensures { result ≡ count_by (λ b. b == newline) t.now }
{
    let mut n = 0;
    // Kept: no `filter` and `count`, by which each byte takes a branch. Here none does, and several are counted at once.
    for b in t {
        n += usize::from(*b == b'\n');
    }
    n
}

// The line of the place p in s.
pub fn line_of(s: &[u8], p: usize) -> u32
    requires { length s.now ≤ 65536 }
    ensures { result ≡ line_at s.now p }
{
    let end = place_in(p, s.len());
    1 + ends_in(&s[..end]) as u32
}
