// The filler and the filler method.
ghost use Rattle.std.specs.Prelude.{◌≡◌, true, false, ◌++◌, ◌∷◌, [], ℕ, ◌≤◌, ◌<◌, length, take, eqb};
ghost use Rattle.reading.specs.Views.{texts, ProperView};
ghost use Rattle.trials.specs.Fillers.{numbered, first_number, fills, is_unnamed};
ghost use Rattle.fillers.specs.Marks.{MarkedToo, Passed, leads, within, within_any, is_marked};

use reading::held::View;

// Marks n.
pub fn mark(marks: &mut [u32], n: usize)
    requires { (length marks.old ≡ 2048) × (n < 65536) }
    ensures { MarkedToo (λ i. eqb i n) marks.old marks.new }
{
    marks[n / 32] |= 1 << (n % 32) as u32;
}

// Marks the numbers below 65,536 that t starts with; how many of its digits it has passed by.
pub fn mark_number(t: &[u8], marks: &mut [u32]) -> usize
    requires { length marks.old ≡ 2048 }
    ensures marked { MarkedToo (leads t.now) marks.old marks.new }
    ensures passed { Passed t.now result }
{
    let mut v: usize = 0;
    for i in 0..t.len() {
        let b = t[i];
        if b < b'0' {
            return i;
        }
        if b'9' < b {
            return i;
        }
        v = v * 10 + (b - b'0') as usize;
        if 65535 < v {
            return i;
        }
        mark(marks, v);
        if v == 0 {
            return i;
        }
    }
    t.len()
}

// Marks the numbers that stand behind a `q` inside t.
pub fn mark_text(t: &[u8], marks: &mut [u32])
    requires { length marks.old ≡ 2048 }
    ensures { MarkedToo (within t.now) marks.old marks.new }
{
    let mut rest = t;
    while let Some((b, tail)) = rest.split_first() {
        rest = tail;
        if *b == b'q' {
            let k = mark_number(rest, marks);
            rest = &rest[k..];
        }
    }
}

// Marks them for every pattern text of a view.
pub fn mark_lines(view: &View, marks: &mut [u32])
    requires { length marks.old ≡ 2048 }
    ensures marked { MarkedToo (within_any (texts view.now)) marks.old marks.new }
    ensures proper { ProperView view.now }
{
    for k in 0..view.pattern_count() {
        mark_text(view.pattern(k), marks);
    }
}

// The first number that is not marked, or 65,536.
pub fn first_unmarked(marks: &[u32]) -> usize
    requires { length marks.now ≡ 2048 }
    ensures below { (i : ℕ) → i < result → is_marked marks.now i ≡ true }
    ensures here { (result < 65536 → is_marked marks.now result ≡ false) × (result ≤ 65536) }
{
    for n in 0..65536 {
        if (marks[n / 32] >> (n % 32) as u32) % 2 == 0 {
            return n;
        }
    }
    65536
}

// The number of the filler of two views; the marks are used, whatever stood there.
pub fn filler_number(old: &View, new: &View, marks: &mut [u32]) -> usize
    requires { length marks.old ≡ 2048 }
    ensures number { result ≡ first_number (fills (texts new.now ++ texts old.now)) }
    ensures small { result < 65536 }
    ensures size { length marks.new ≡ length marks.old }
{
    marks.fill(0);
    mark_lines(new, marks);
    mark_lines(old, marks);
    first_unmarked(marks)
}

// Puts a letter and n in decimal at the start, and hands back how many bytes they are.
pub fn put_name(out: &mut [u8], letter: u8, n: usize) -> usize
    requires { 6 ≤ length out.old }
    ensures size { result ≤ 6 }
    ensures bytes { take result out.new ≡ numbered (letter ∷ []) n }
    ensures kept { length out.new ≡ length out.old }
{
    writing::put_numbered(out, 0, letter, n)
}

// Whether neither view names the method `Q` and n.
pub fn is_unnamed(old: &View, new: &View, n: usize) -> bool
    ensures { result ≡ is_unnamed (new.now.methods ++ old.now.methods) n }
{
    // Kept: fixed memory, no heap: the name has 6 bytes at most, and stands in the first `size` of these.
    let mut name = [0; 8];
    let size = put_name(&mut name, b'Q', n);
    if new.method_index(&name[..size]) < new.method_count() {
        return false;
    }
    old.method_count() <= old.method_index(&name[..size])
}

// The number of the filler method: as many names as the views have methods can't all be taken.
pub fn method_number(old: &View, new: &View) -> usize
    ensures { (result ≡ first_number (is_unnamed (new.now.methods ++ old.now.methods))) × (result < 100) }
{
    let most = new.method_count() + old.method_count();
    for n in 0..most {
        if is_unnamed(old, new, n) {
            return n;
        }
    }
    most
}
