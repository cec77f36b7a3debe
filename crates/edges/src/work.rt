// The work table around a call: what is put into it before, and what is seen of it afterwards.
ghost use Rattle.std.specs.Prelude.{◌≡◌, ◌≤◌, ◌<◌, length};
ghost use Rattle.edges.specs.Garbage.{garbage_at, garbage, is_zero, is_kept, is_cleared};

// What is put at index i: never 0, and another number at each index.
pub fn garbage_at(i: usize) -> u32
    requires { i < 5000 }
    ensures { result ≡ garbage_at i }
{
    i as u32 * 858993 + 1
}

// Fills w with it.
pub fn fill(w: &mut [u32])
    requires { length w.old ≤ 5000 }
    ensures { w.new ≡ garbage 0 (length w.old) }
{
    for (i, x) in w.iter_mut().enumerate() {
        *x = garbage_at(i);
    }
}

// Whether w is as it was filled, from index a on.
pub fn is_kept(w: &[u32], a: usize) -> bool
    requires { length w.now ≤ 5000 }
    ensures { result ≡ is_kept a w.now }
{
    for i in a..w.len() {
        if w[i] != garbage_at(i) {
            return false;
        }
    }
    true
}

// Whether all of w is 0.
pub fn is_zero(w: &[u32]) -> bool
    ensures { result ≡ is_zero w.now }
{
    w.iter().all(|x| *x == 0)
}

// Whether the first n numbers are 0, and the rest as they were filled.
pub fn is_cleared(w: &[u32], n: usize) -> bool
    requires { (n ≤ length w.now) × (length w.now ≤ 5000) }
    ensures { result ≡ is_cleared n w.now }
{
    is_zero(&w[..n]) && is_kept(w, n)
}
