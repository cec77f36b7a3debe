// The lent work table: where each list of it stands, how one is searched, and how it grows. specs/Tables.antt says what it holds.
ghost use Rattle.std.specs.Prelude.{◌≡◌, ◌+◌, ◌-◌, ◌*◌, ◌≤◌, ◌<◌, ◌^◌, length, set, get_or, cond, IfSome};
ghost use Rattle.std.specs.Int.Bits.{bit_or};
ghost use Rattle.entries.specs.Sets.{with_member, without_member, lowest};
ghost use Rattle.text.specs.Texts.{same};
ghost use Rattle.entries.specs.Tables.{stamp_of, packed, text_at, texts_at, region, found, spanned, span_at};
ghost use Rattle.entries.specs.Tallies.{start_tally, tally_at, tally_role, tally_constraint, tally_allowed, tally_collection, tally_pattern, tally_line, tally_method};

use listings::records::Stage;
use text::texts;

// Where each list begins. Covers, allows and accesses are counted from 1, and the number at their index 0 means nothing.
pub const ROLES: usize = 0;

pub const METHODS: usize = 32;

pub const PATTERNS: usize = 64;

pub const OWNERS: usize = 192;

pub const PARENTS: usize = 320;

pub const COVERS: usize = 448;

pub const ALLOWS: usize = 580;

pub const ACCESSES: usize = 650;

// How much of each list is filled, and where the reader stands.
#[derive(Clone, Copy)]
pub struct Tally {
    pub stage: Stage,
    pub lines: usize,
    pub declared: usize,
    pub roles: usize,
    pub methods: usize,
    pub patterns: usize,
    pub collections: usize,
    pub constraints: usize,
}

// The last two bytes of t and its length, as a number's last 16 digits hold them. Names often begin alike, and end in a number.
pub fn stamp(t: &[u8]) -> u32
    ensures is { result ≡ stamp_of t.now }
    ensures small { result < 65536 }
{
    match t {
        [] => 0,
        [only] => u32::from(*only) * 17 % 256 * 256 + 1,
        [.., before, last] => (u32::from(*before) * 16 + u32::from(*last)) % 256 * 256
            + (t.len() % 256) as u32,
    }
}

// The text that the number x spans: its offset and its length; none where it would run past the end.
pub fn span_at(s: &[u8], x: u32) -> &[u8]
    ensures { result.now ≡ span_at s.now x }
{
    let from = (x / 65536) as usize;
    let to = from + (x % 65536) as usize;
    if s.len() < to {
        return &s[0..0];
    }
    &s[from..to]
}

// The text that the number x names: its offset, its last byte and its length; none where the text there has another stamp.
pub fn text_at(s: &[u8], x: u32) -> &[u8]
    ensures { result.now ≡ text_at s.now x }
{
    let text = span_at(s, x / 65536 * 65536 + x % 256);
    if stamp(text) == x % 65536 {
        text
    } else {
        &s[0..0]
    }
}

// Whether x names t, whose stamp is `key`. With that stamp it does if t stands at its offset; with another it does not, unless t is empty.
pub fn is_named(s: &[u8], x: u32, key: u32, t: &[u8]) -> bool
    requires { key ≡ stamp_of t.now }
    ensures { result ≡ same (text_at s.now x) t.now }
{
    if t.is_empty() {
        return text_at(s, x).is_empty();
    }
    if x % 65536 != key || 255 < t.len() {
        return false;
    }
    let from = (x / 65536) as usize;
    from <= s.len() && texts::starts_with(t, &s[from..])
}

// The index of t among the n texts that the table names from `base` on; none where it is none of them.
pub fn index(s: &[u8], w: &[u32], base: usize, n: usize, t: &[u8]) -> Option<usize>
    requires { base + n ≤ length w.now }
    ensures is { result ≡ found t.now (texts_at s.now (region w.now base n)) }
    ensures below { IfSome result (λ i. i < n) }
{
    let key = stamp(t);
    for k in 0..n {
        if is_named(s, w[base + k], key, t) {
            return Some(k);
        }
    }
    None
}

// The number i becomes the name of the text of s from a up to e.
pub fn put_text(s: &[u8], w: &mut [u32], i: usize, a: usize, e: usize)
    requires { (i < length w.old) × ((a ≤ e) × ((e ≤ length s.now) × (length s.now ≤ 24576))) }
    ensures { w.new ≡ set w.old i (packed s.now a e) }
{
    w[i] = a as u32 * 65536 + stamp(&s[a..e]);
}

// The number i becomes that of the text from a up to e.
pub fn put_span(w: &mut [u32], i: usize, a: usize, e: usize)
    requires { (i < length w.old) × ((a ≤ e) × (e ≤ 24576)) }
    ensures { w.new ≡ set w.old i (spanned a e) }
{
    w[i] = a as u32 * 65536 + (e - a) as u32;
}

// ---- sets of numbers below 32

// The set x with i put in.
pub fn with_member(x: u32, i: usize) -> u32
    requires { i < 32 }
    ensures { result ≡ with_member x i }
{
    x | (1 << (i % 32) as u32)
}

// The set x with i taken out.
pub fn without_member(x: u32, i: usize) -> u32
    requires { i < 32 }
    ensures { result ≡ without_member x i }
{
    x & !(1 << (i % 32) as u32)
}

// The set of the n lowest.
pub fn lowest_of(n: usize) -> u32
    requires { n ≤ 32 }
    ensures { result ≡ lowest n }
{
    if n == 32 {
        return u32::MAX;
    }
    (1 << (n % 32) as u32) - 1
}

// ---- what a record writes

// The constraint that n others stand before begins, with the number of its access, and allows no role yet.
pub fn put_constraint(w: &mut [u32], n: usize, access: u32)
    requires { (651 + n < length w.old) × (n ≤ 64) }
    ensures { w.new ≡ set (set w.old (581 + n) 0) (651 + n) access }
{
    w[ALLOWS + 1 + n] = 0;
    w[ACCESSES + 1 + n] = access;
}

// The pattern that n others stand before: its text from a up to e, and the numbers of its collection and of its constraint.
pub fn put_pattern(w: &mut [u32], n: usize, a: usize, e: usize, c: usize, k: usize)
    requires n_in_bounds { (320 + n < length w.old) × ((n ≤ 128) × ((c ≤ 128) × (k ≤ 64))) }
    requires a_le_e { (a ≤ e) × (e ≤ 24576) }
    ensures { w.new ≡ set (set (set w.old (64 + n) (spanned a e)) (192 + n) c) (320 + n) k }
{
    put_span(w, PATTERNS + n, a, e);
    w[OWNERS + n] = c as u32;
    w[PARENTS + n] = k as u32;
}

// Constraint c allows the roles of the set too.
pub fn allow(w: &mut [u32], c: usize, roles: u32)
    requires { (650 + c < length w.old) × (c ≤ 64) }
    ensures { w.new ≡ set (set w.old (580 + c) (bit_or (get_or w.old (580 + c) 0) roles)) (650 + c) 2 }
{
    w[ALLOWS + c] |= roles;
    w[ACCESSES + c] = 2;
}

// Constraint c allows the first n roles too, which are the declared ones.
pub fn allow_declared(w: &mut [u32], c: usize, n: usize)
    requires { (650 + c < length w.old) × ((c ≤ 64) × (n ≤ 32)) }
    ensures { w.new ≡ set (set w.old (580 + c) (bit_or (get_or w.old (580 + c) 0) (lowest n))) (650 + c) 2 }
{
    allow(w, c, lowest_of(n));
}

// Constraint c allows role i too.
pub fn allow_role(w: &mut [u32], c: usize, i: usize)
    requires { (650 + c < length w.old) × ((c ≤ 64) × (i < 32)) }
    ensures { w.new ≡ set (set w.old (580 + c) (bit_or (get_or w.old (580 + c) 0) (with_member 0 i))) (650 + c) 2 }
{
    allow(w, c, with_member(0, i));
}

// Collection c covers method i too; where this is its first, only that.
pub fn cover(w: &mut [u32], c: usize, fresh: bool, i: usize)
    requires { (448 + c < length w.old) × ((c ≤ 128) × (i < 32)) }
    ensures { w.new ≡ set w.old (448 + c) (with_member (cond fresh 0 (get_or w.old (448 + c) 0)) i) }
{
    if fresh {
        w[COVERS + c] = with_member(0, i);
    } else {
        w[COVERS + c] = with_member(w[COVERS + c], i);
    }
}

// Collection c does not cover method i.
pub fn uncover(w: &mut [u32], c: usize, i: usize)
    requires { (448 + c < length w.old) × ((c ≤ 128) × (i < 32)) }
    ensures { w.new ≡ set w.old (448 + c) (without_member (get_or w.old (448 + c) 0) i) }
{
    w[COVERS + c] = without_member(w[COVERS + c], i);
}

// ---- the counts after each record

impl Tally {
    // Behind the first line: nothing yet.
    pub fn start() -> Tally
        ensures { result ≡ start_tally }
    {
        Tally {
            stage: Stage::AfterFirst,
            lines: 0,
            declared: 0,
            roles: 0,
            methods: 0,
            patterns: 0,
            collections: 0,
            constraints: 0,
        }
    }

    // The reader at another stage.
    pub fn at(self, stage: Stage) -> Tally
        ensures { result ≡ tally_at self stage }
    {
        Tally { stage, ..self }
    }

    // A declared role more.
    pub fn with_role(self) -> Tally
        requires { (self.declared < 1000) × (self.roles < 1000) }
        ensures { result ≡ tally_role self }
    {
        Tally {
            stage: Stage::AfterRole,
            declared: self.declared + 1,
            roles: self.roles + 1,
            ..self
        }
    }

    // A constraint more.
    pub fn with_constraint(self, stage: Stage) -> Tally
        requires { self.constraints < 1000 }
        ensures { result ≡ tally_constraint self stage }
    {
        Tally {
            stage,
            constraints: self.constraints + 1,
            ..self
        }
    }

    // A role more, not declared.
    pub fn with_allowed(self) -> Tally
        requires { self.roles < 1000 }
        ensures { result ≡ tally_allowed self }
    {
        Tally {
            stage: Stage::AfterAllow,
            roles: self.roles + 1,
            ..self
        }
    }

    // Kept: these functions count up other fields each; one for all of them would take a number for each field, and say less at its calls.
    // A collection more.
    pub fn with_collection(self) -> Tally
        requires { self.collections < 1000 }
        ensures { result ≡ tally_collection self }
    {
        Tally {
            stage: Stage::AfterCollection,
            collections: self.collections + 1,
            ..self
        }
    }

    // A pattern more.
    pub fn with_pattern(self) -> Tally
        requires { self.patterns < 1000 }
        ensures { result ≡ tally_pattern self }
    {
        Tally {
            stage: Stage::AfterPattern,
            patterns: self.patterns + 1,
            ..self
        }
    }

    // A `method` or `omit` line more.
    pub fn with_line(self, stage: Stage) -> Tally
        requires { self.lines < 1000 }
        ensures { result ≡ tally_line self stage }
    {
        Tally {
            stage,
            lines: self.lines + 1,
            ..self
        }
    }

    // Such a line, and a method more.
    pub fn with_method(self, stage: Stage) -> Tally
        requires { (self.lines < 1000) × (self.methods < 1000) }
        ensures { result ≡ tally_method self stage }
    {
        Tally {
            stage,
            lines: self.lines + 1,
            methods: self.methods + 1,
            ..self
        }
    }
}
