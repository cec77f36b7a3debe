// The lines in the listing's order: the roles, then each constraint with the names that it allows and its collections.
ghost use Rattle.std.specs.Prelude.{◌≡◌, ◌+◌, ◌%◌, ◌≤◌, ◌<◌, eqb, length, drop};
ghost use Rattle.std.proofs.lemmas.List.Edits.{sets};
ghost use Rattle.portals.specs.Listings.{roles_first, allows, blocks, lines_text, written};
ghost use Rattle.ledger.specs.Places.{number_of, record_at, records_at};
ghost use Rattle.forming.specs.Formed.{Writable, Formed, is_constraint, chosen, begun};

use crate::lines;
use ledger::items::Item;
use writing;

// Whether the record x is of that kind.
pub fn is_of(x: u32, item: Item) -> bool
    ensures { result ≡ eqb (x % 8) (number_of item) }
{
    x % 8 == u32::from(item)
}

// Whether the record x is a constraint.
pub fn is_constraint(x: u32) -> bool
    ensures { result ≡ is_constraint x }
{
    is_of(x, Item::Open) | is_of(x, Item::Auth)
}

// The line of the record x where it is wanted, else nothing; the place behind it.
pub fn put_if(s: &[u8], x: u32, wanted: bool, out: &mut [u8], at: usize) -> usize
    requires { Writable s.now x at }
    ensures place { result ≡ at + length (lines_text (chosen wanted (record_at s.now x))) }
    ensures bytes { out.new ≡ sets out.old at (lines_text (chosen wanted (record_at s.now x))) }
{
    if wanted {
        return lines::put_record(s, x, out, at);
    }
    at
}

// The lines of the roles among the records; the place behind them.
pub fn put_roles(s: &[u8], records: &[u32], out: &mut [u8], at: usize) -> usize
    requires { Formed s.now (length records.now) records.now × (at + length (lines_text (roles_first (records_at s.now (length records.now) records.now))) ≤ 999000) }
    ensures place { result ≡ at + length (lines_text (roles_first (records_at s.now (length records.now) records.now))) }
    ensures bytes { out.new ≡ sets out.old at (lines_text (roles_first (records_at s.now (length records.now) records.now))) }
{
    let mut e = at;
    for x in records {
        e = put_if(s, *x, is_of(*x, Item::Role), out, e);
    }
    e
}

// The lines of the names that are allowed from record i on, up to the next constraint; the place behind them.
pub fn put_allows(s: &[u8], records: &[u32], i: usize, out: &mut [u8], at: usize) -> usize
    requires { Formed s.now (length records.now) records.now × ((i ≤ length records.now) × (at + length (lines_text (allows (drop i (records_at s.now (length records.now) records.now)))) ≤ 999000)) }
    ensures place { result ≡ at + length (lines_text (allows (drop i (records_at s.now (length records.now) records.now)))) }
    ensures bytes { out.new ≡ sets out.old at (lines_text (allows (drop i (records_at s.now (length records.now) records.now)))) }
{
    let mut e = at;
    for x in &records[i..] {
        if is_constraint(*x) {
            return e;
        }
        e = put_if(s, *x, is_of(*x, Item::Allow), out, e);
    }
    e
}

// What record i puts: a constraint its line and the names that it allows; the place behind it.
pub fn put_block(s: &[u8], records: &[u32], i: usize, out: &mut [u8], at: usize) -> usize
    requires { Formed s.now (length records.now) records.now × ((i < length records.now) × (at + length (lines_text (begun (drop i (records_at s.now (length records.now) records.now)))) ≤ 999000)) }
    ensures place { result ≡ at + length (lines_text (begun (drop i (records_at s.now (length records.now) records.now)))) }
    ensures bytes { out.new ≡ sets out.old at (lines_text (begun (drop i (records_at s.now (length records.now) records.now)))) }
{
    let x = records[i];
    if is_constraint(x) {
        let e = lines::put_record(s, x, out, at);
        return put_allows(s, records, i + 1, out, e);
    }
    let wanted = !is_of(x, Item::Role) & !is_of(x, Item::Allow);
    put_if(s, x, wanted, out, at)
}

// The lines of the constraints and what they hold; the place behind them.
pub fn put_blocks(s: &[u8], records: &[u32], out: &mut [u8], at: usize) -> usize
    requires { Formed s.now (length records.now) records.now × (at + length (lines_text (blocks (records_at s.now (length records.now) records.now))) ≤ 999000) }
    ensures place { result ≡ at + length (lines_text (blocks (records_at s.now (length records.now) records.now))) }
    ensures bytes { out.new ≡ sets out.old at (lines_text (blocks (records_at s.now (length records.now) records.now))) }
{
    let mut e = at;
    for i in 0..records.len() {
        e = put_block(s, records, i, out, e);
    }
    e
}

// The whole listing; its length.
pub fn put_listing(s: &[u8], records: &[u32], out: &mut [u8]) -> usize
    requires { Formed s.now (length records.now) records.now }
    ensures size { result ≡ length (written (records_at s.now (length records.now) records.now)) }
    ensures bytes { out.new ≡ sets out.old 0 (written (records_at s.now (length records.now) records.now)) }
{
    let a = writing::put(out, 0, b"constraints\t1\n");
    let b = put_roles(s, records, out, a);
    let c = put_blocks(s, records, out, b);
    writing::put(out, c, b"end\n")
}
