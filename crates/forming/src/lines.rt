// The line of a record.
ghost use Rattle.std.specs.Prelude.{◌≡◌, ◌+◌, ◌/◌, ◌%◌, ◌≤◌, length};
ghost use Rattle.std.proofs.lemmas.List.Edits.{sets};
ghost use Rattle.portals.specs.Listings.{head_of, line_of};
ghost use Rattle.ledger.specs.Places.{text_at, kind_by, field_by, record_at};
ghost use Rattle.forming.specs.Formed.{Writable};

use ledger::items;
use ledger::items::Item;
use listings::records::Kind;
use markup::gathering;
use writing;

// The kind of the record of that number.
pub fn kind_of(x: u32) -> Kind
    ensures { result ≡ kind_by (x % 8) }
{
    match items::item_of(x) {
        Item::Role => Kind::Role,
        Item::Open | Item::Auth => Kind::Constraint,
        Item::Allow => Kind::Allow,
        Item::Collection => Kind::Collection,
        Item::Pattern => Kind::Pattern,
        Item::Method => Kind::Method,
        Item::Omit => Kind::Omit,
    }
}

// How the line of a record of that kind begins.
pub fn head_of(k: Kind) -> &'static [u8]
    ensures { result.now ≡ head_of k }
{
    match k {
        Kind::Role => b"role\t",
        Kind::Constraint => b"constraint\t",
        Kind::Allow => b"allow\t",
        Kind::Collection => b"collection",
        Kind::Pattern => b"pattern\t",
        Kind::Method => b"method\t",
        Kind::Omit => b"omit\t",
        Kind::End => b"end",
    }
}

// The same, put; the place behind it.
pub fn put_head(k: Kind, out: &mut [u8], at: usize) -> usize
    requires { at ≤ 999000 }
    ensures place { result ≡ at + length (head_of k) }
    ensures bytes { out.new ≡ sets out.old at (head_of k) }
{
    writing::put(out, at, head_of(k))
}

// The text at the place p of the file; the place behind it.
pub fn put_text(s: &[u8], p: usize, out: &mut [u8], at: usize) -> usize
    requires { (length s.now ≤ 65536) × ((length (text_at s.now p) ≤ 255) × (at ≤ 1000000)) }
    ensures place { result ≡ at + length (text_at s.now p) }
    ensures bytes { out.new ≡ sets out.old at (text_at s.now p) }
{
    if s.len() < p {
        return at;
    }
    // Kept: fixed memory, no heap: a text has 255 bytes at most, and stands in the first `len` of these.
    let mut letters = [0u8; 256];
    let Ok(g) = gathering::gather(s, p, p, &mut letters) else {
        return at;
    };
    writing::put(out, at, &letters[..g.len])
}

// The field of the record x; the place behind it.
pub fn put_field(s: &[u8], x: u32, out: &mut [u8], at: usize) -> usize
    requires { (length s.now ≤ 65536) × ((length (field_by s.now (x % 8) (x / 8)) ≤ 255) × (at ≤ 1000000)) }
    ensures place { result ≡ at + length (field_by s.now (x % 8) (x / 8)) }
    ensures bytes { out.new ≡ sets out.old at (field_by s.now (x % 8) (x / 8)) }
{
    match items::item_of(x) {
        Item::Open => writing::put(out, at, b"open"),
        Item::Auth => writing::put(out, at, b"auth"),
        Item::Collection => at,
        _ => put_text(s, (x / 8) as usize, out, at),
    }
}

// The line of the record x; the place behind it.
pub fn put_record(s: &[u8], x: u32, out: &mut [u8], at: usize) -> usize
    requires { Writable s.now x at }
    ensures place { result ≡ at + length (line_of (record_at s.now x)) }
    ensures bytes { out.new ≡ sets out.old at (line_of (record_at s.now x)) }
{
    let a = put_head(kind_of(x), out, at);
    let b = put_field(s, x, out, a);
    writing::put(out, b, b"\n")
}
