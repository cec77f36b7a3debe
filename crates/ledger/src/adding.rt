// A record judged by the rules and, where it breaks none, kept. Each answers the rule that is broken, if one is.
ghost use Rattle.std.specs.Prelude.{◌≡◌, ◌+◌, ◌*◌, ◌≤◌, ◌<◌, length, get_or};
ghost use Rattle.markup.specs.Places.{cause_of};
ghost use Rattle.ledger.specs.Places.{Fits, number_of, Offered, Judged, Guarded, long_fault, size_at, with_one, with_name, with_record, with_last};

use crate::items::Item;
use crate::{keeping, searching};
use limits::{Counted, most};
use markup::answers::Cause;
use text::texts;

// What is written of a role: its name x, whose place is d among the declared ones and i among all.
pub fn keep_role(w: &mut [u32], place: usize, d: usize, i: usize, x: u32)
    requires { Fits w.old × ((place ≤ 65536) × ((d < 32) × (i < 32))) }
    ensures { w.new ≡ with_record (place * 8 + 0) (with_name 3600 3701 i x (with_name 3664 3703 d x w.old)) }
{
    keeping::put_name(w, keeping::DECLARED, keeping::DECLARED_COUNT, d, x);
    keeping::put_name(w, keeping::ROLES, keeping::ROLE_COUNT, i, x);
    keeping::put_record(w, Item::Role, place);
}

// A declared role, of name t.
pub fn role(s: &[u8], w: &mut [u32], place: usize, t: &[u8]) -> Result<(), Cause>
    requires { Offered s.now w.old 0 place t.now }
    ensures { Judged s.now w.old 0 place result w.new }
{
    if !names::is_role_name(t, texts::all_text(t)) {
        return Err(Cause::BadName);
    }
    let d = searching::find(s, w, keeping::DECLARED, keeping::DECLARED_COUNT, t);
    if d < keeping::count(w, keeping::DECLARED_COUNT) {
        return Err(Cause::RoleTwice);
    }
    let i = searching::find(s, w, keeping::ROLES, keeping::ROLE_COUNT, t);
    let most = most(Counted::Roles);
    if most <= d || most <= i {
        return Err(Cause::PastMost);
    }
    keep_role(w, place, d, i, keeping::name_number(place, t));
    Ok(())
}

// An allowed name.
pub fn allow(s: &[u8], w: &mut [u32], place: usize, t: &[u8]) -> Result<(), Cause>
    requires { Offered s.now w.old 3 place t.now }
    ensures { Judged s.now w.old 3 place result w.new }
{
    if !names::is_name(t, texts::all_text(t)) {
        return Err(Cause::BadName);
    }
    if names::is_star(t) {
        keeping::put_record(w, Item::Allow, place);
        return Ok(());
    }
    let i = searching::find(s, w, keeping::ROLES, keeping::ROLE_COUNT, t);
    if most(Counted::Roles) <= i {
        return Err(Cause::PastMost);
    }
    let x = keeping::name_number(place, t);
    keeping::put_name(w, keeping::ROLES, keeping::ROLE_COUNT, i, x);
    keeping::put_record(w, Item::Allow, place);
    Ok(())
}

// A pattern.
pub fn pattern(s: &[u8], w: &mut [u32], place: usize, t: &[u8]) -> Result<(), Cause>
    requires { Offered s.now w.old 5 place t.now }
    ensures { Judged s.now w.old 5 place result w.new }
{
    if !names::is_pattern(t, texts::all_text(t)) {
        return Err(Cause::BadPattern);
    }
    if most(Counted::Patterns) <= keeping::count(w, keeping::PATTERNS) {
        return Err(Cause::PastMost);
    }
    keeping::put_one(w, keeping::PATTERNS);
    keeping::put_record(w, Item::Pattern, place);
    Ok(())
}

// What is written of a method or an omission: its name x, whose place among the methods is i.
pub fn keep_method(w: &mut [u32], item: Item, place: usize, i: usize, x: u32)
    requires { Fits w.old × ((place ≤ 65536) × (i < 31)) }
    ensures { w.new ≡ with_record (place * 8 + number_of item) (with_name 3632 3702 i x (with_one 3707 w.old)) }
{
    keeping::put_one(w, keeping::LINES);
    keeping::put_name(w, keeping::METHODS, keeping::METHOD_COUNT, i, x);
    keeping::put_record(w, item, place);
}

// A method, or an omission.
pub fn method(s: &[u8], w: &mut [u32], item: Item, place: usize, t: &[u8]) -> Result<(), Cause>
    requires { Offered s.now w.old (number_of item) place t.now × (6 ≤ number_of item) }
    ensures { Judged s.now w.old (number_of item) place result w.new }
{
    if !names::is_method_name(t) {
        return Err(Cause::BadName);
    }
    if most(Counted::MethodLines) <= keeping::count(w, keeping::LINES) {
        return Err(Cause::PastMost);
    }
    let i = searching::find(s, w, keeping::METHODS, keeping::METHOD_COUNT, t);
    if most(Counted::Methods) <= i {
        return Err(Cause::PastMost);
    }
    keep_method(w, item, place, i, keeping::name_number(place, t));
    Ok(())
}

// A collection begins.
pub fn collection(s: &[u8], w: &mut [u32], place: usize) -> Result<(), Cause>
    requires { Fits w.old × ((length s.now ≤ 65536) × (place ≤ 65536)) }
    ensures { Judged s.now w.old 4 place result w.new }
{
    if most(Counted::Collections) <= keeping::count(w, keeping::COLLECTIONS) {
        return Err(Cause::PastMost);
    }
    keeping::put_one(w, keeping::COLLECTIONS);
    keeping::put_record(w, Item::Collection, place);
    Ok(())
}

// What is written of a constraint: it is the last one.
pub fn keep_constraint(w: &mut [u32], item: Item, place: usize)
    requires { Fits w.old × (place ≤ 65536) }
    ensures { w.new ≡ with_record (place * 8 + number_of item) (with_one 3704 (with_last w.old)) }
{
    keeping::put_last(w);
    keeping::put_one(w, keeping::CONSTRAINTS);
    keeping::put_record(w, item, place);
}

// A constraint begins.
pub fn constraint(s: &[u8], w: &mut [u32], item: Item, place: usize) -> Result<(), Cause>
    requires { Fits w.old × ((1 ≤ number_of item) × ((number_of item ≤ 2) × ((length s.now ≤ 65536) × (place ≤ 65536)))) }
    ensures { Judged s.now w.old (number_of item) place result w.new }
{
    if most(Counted::Constraints) <= keeping::count(w, keeping::CONSTRAINTS) {
        return Err(Cause::PastMost);
    }
    keep_constraint(w, item, place);
    Ok(())
}

// The record of that kind whose text t stands at that place of the file.
pub fn add(s: &[u8], w: &mut [u32], item: Item, place: usize, t: &[u8]) -> Result<(), Cause>
    requires { Offered s.now w.old (number_of item) place t.now }
    ensures { Judged s.now w.old (number_of item) place result w.new }
{
    match item {
        Item::Role => role(s, w, place, t),
        Item::Open | Item::Auth => constraint(s, w, item, place),
        Item::Allow => allow(s, w, place, t),
        Item::Collection => collection(s, w, place),
        Item::Pattern => pattern(s, w, place, t),
        Item::Method | Item::Omit => method(s, w, item, place, t),
    }
}

// The rule that a text of over 255 bytes breaks.
pub fn too_long_fault(item: Item) -> Cause
    ensures { result ≡ cause_of (long_fault (number_of item)) }
{
    match item {
        Item::Pattern => Cause::BadPattern,
        _ => Cause::BadName,
    }
}

// The last constraint has an authorization constraint.
pub fn guard(w: &mut [u32])
    requires { Fits w.old }
    ensures { Guarded w.old w.new }
{
    let last = keeping::count(w, keeping::LAST);
    if last == 0 || keeping::MOST < last {
        return;
    }
    w[last - 1] = u32::from(Item::Auth);
}

// How many records there are, counted up to one more than have room.
pub fn size(w: &[u32]) -> usize
    requires { Fits w.now }
    ensures { result ≡ get_or w.now size_at 0 }
{
    keeping::count(w, keeping::SIZE)
}

// The number of the record that k others stand before.
pub fn number(w: &[u32], k: usize) -> u32
    requires { k < length w.now }
    ensures { result ≡ get_or w.now k 0 }
{
    w[k]
}
