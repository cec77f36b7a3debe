// Where the parts of a stored request stand: specs/Stored.antt says how its file is laid out.
ghost use Rattle.std.specs.Prelude.{◌≡◌, ◌+◌, ◌≤◌, ◌<◌, min, length, get_or};
ghost use Rattle.decide_edges.specs.Stored.{two_at, four_at};

// The byte at offset i, and 0 where there is none.
pub fn byte_at(s: &[u8], i: usize) -> u8
    ensures { result ≡ get_or s.now i 0 }
{
    s.get(i).copied().unwrap_or(0)
}

// The number that two bytes from offset i on make.
pub fn two_at(s: &[u8], i: usize) -> usize
    requires { i < 12 }
    ensures value { result ≡ two_at s.now i }
    ensures upper_bound { result < 65536 }
{
    usize::from(u16::from_le_bytes([byte_at(s, i), byte_at(s, i + 1)]))
}

// The number that four bytes from offset i on make.
pub fn four_at(s: &[u8], i: usize) -> u32
    requires { i < 10 }
    ensures { result ≡ four_at s.now i }
{
    u32::from_le_bytes([
        byte_at(s, i),
        byte_at(s, i + 1),
        byte_at(s, i + 2),
        byte_at(s, i + 3),
    ])
}

// Where a part of n bytes ends that starts at `from`, in a file of `most` bytes: it is cut to what is there.
pub fn end_of(from: usize, n: usize, most: usize) -> usize
    requires { from ≤ most }
    ensures lower_bound { from ≤ result }
    ensures upper_bound { result ≤ most }
    ensures value { result ≡ min (from + n) most }
{
    from + n.min(most - from)
}
