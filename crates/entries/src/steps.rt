// What one record does: it is refused for the rule that it breaks, or the table grows by it and its counts are handed back. A record is its kind and its field.
ghost use Rattle.std.specs.Prelude.{◌≡◌, ◌+◌, ◌≤◌, ◌<◌, length, set, get_or};
ghost use Rattle.listings.specs.Heads.{is_first_method};
ghost use Rattle.text.specs.Texts.{all, part};
ghost use Rattle.text.specs.Bytes.{is_text};
ghost use Rattle.entries.specs.Tables.{Field, Steps, StepOutcome, step_from, check_role, check_constraint, check_allow, check_collection, check_pattern, check_method, field_check, add_role, add_constraint, add_allow, add_collection, add_pattern, add_line, marked, stage_behind, field_add, tables_at, record_with};

use crate::tables;
use crate::tables::Tally;
use limits::{Counted, most};
use listings::answers::Fault;
use listings::records;
use listings::records::{Kind, Stage};
use text::texts;

// A record's field: the bytes of the listing from `from` up to `end`, and whether all of them are text.
#[derive(Clone, Copy)]
pub struct Span {
    pub from: usize,
    pub end: usize,
    pub clean: bool,
}

// `role⇥NAME`
pub fn role(s: &[u8], w: &mut [u32], t: Tally, f: Span) -> Result<Tally, Fault>
    requires { Field s.now t w.old f.from f.end × (f.clean ≡ all is_text (part f.from f.end s.now)) }
    ensures { Steps check_role add_role s.now t w.old f.from f.end result w.new }
{
    let name = &s[f.from..f.end];
    let n = t.roles;
    if !names::is_role_name(name, f.clean) {
        return Err(Fault::BadName);
    }
    if tables::index(s, w, tables::ROLES, n, name).is_some() {
        return Err(Fault::RoleTwice);
    }
    if most(Counted::Roles) <= n {
        return Err(Fault::PastMost);
    }
    tables::put_text(s, w, tables::ROLES + n, f.from, f.end);
    Ok(t.with_role())
}

// `constraint⇥open` and `constraint⇥auth`
pub fn constraint(s: &[u8], w: &mut [u32], t: Tally, f: Span) -> Result<Tally, Fault>
    requires { Field s.now t w.old f.from f.end }
    ensures { Steps check_constraint add_constraint s.now t w.old f.from f.end result w.new }
{
    let word = &s[f.from..f.end];
    let n = t.constraints;
    if !names::is_constraint_kind(word) {
        return Err(Fault::BadName);
    }
    if most(Counted::Constraints) <= n {
        return Err(Fault::PastMost);
    }
    if texts::are_same(word, b"open") {
        tables::put_constraint(w, n, 0);
        return Ok(t.with_constraint(Stage::AfterOpen));
    }
    tables::put_constraint(w, n, 1);
    Ok(t.with_constraint(Stage::AfterAuth))
}

// `allow⇥NAME` and `allow⇥*`
pub fn allow(s: &[u8], w: &mut [u32], t: Tally, f: Span) -> Result<Tally, Fault>
    requires { Field s.now t w.old f.from f.end × (f.clean ≡ all is_text (part f.from f.end s.now)) }
    ensures { Steps check_allow add_allow s.now t w.old f.from f.end result w.new }
{
    let name = &s[f.from..f.end];
    let n = t.roles;
    let c = t.constraints;
    let declared = t.declared;
    if !names::is_name(name, f.clean) {
        return Err(Fault::BadName);
    }
    if names::is_star(name) {
        tables::allow_declared(w, c, declared);
        return Ok(t.at(Stage::AfterAllow));
    }
    if let Some(i) = tables::index(s, w, tables::ROLES, n, name) {
        tables::allow_role(w, c, i);
        return Ok(t.at(Stage::AfterAllow));
    }
    if most(Counted::Roles) <= n {
        return Err(Fault::PastMost);
    }
    tables::put_text(s, w, tables::ROLES + n, f.from, f.end);
    tables::allow_role(w, c, n);
    Ok(t.with_allowed())
}

// `collection`
pub fn collection(s: &[u8], w: &mut [u32], t: Tally, f: Span) -> Result<Tally, Fault>
    requires { Field s.now t w.old f.from f.end }
    ensures { Steps check_collection add_collection s.now t w.old f.from f.end result w.new }
{
    let n = t.collections;
    if most(Counted::Collections) <= n {
        return Err(Fault::PastMost);
    }
    w[tables::COVERS + 1 + n] = u32::MAX;
    Ok(t.with_collection())
}

// `pattern⇥TEXT`
pub fn pattern(s: &[u8], w: &mut [u32], t: Tally, f: Span) -> Result<Tally, Fault>
    requires { Field s.now t w.old f.from f.end × (f.clean ≡ all is_text (part f.from f.end s.now)) }
    ensures { Steps check_pattern add_pattern s.now t w.old f.from f.end result w.new }
{
    let n = t.patterns;
    let c = t.collections;
    let k = t.constraints;
    if !names::is_pattern(&s[f.from..f.end], f.clean) {
        return Err(Fault::BadPattern);
    }
    if most(Counted::Patterns) <= n {
        return Err(Fault::PastMost);
    }
    tables::put_pattern(w, n, f.from, f.end, c, k);
    Ok(t.with_pattern())
}

// What a line on method i does to its collection: `omit` takes the method out, `method` puts it in.
fn mark(w: &mut [u32], t: Tally, omits: bool, i: usize)
    requires { (448 + t.collections < length w.old) × ((t.collections ≤ 128) × (i < 32)) }
    ensures { w.new ≡ set w.old (448 + t.collections) (marked omits (is_first_method t.stage) (get_or w.old (448 + t.collections) 0) i) }
{
    if omits {
        tables::uncover(w, t.collections, i);
    } else {
        tables::cover(w, t.collections, t.stage == Stage::AfterPattern, i);
    }
}

// Where such a line leaves the reader.
fn stage_behind(omits: bool) -> Stage
    ensures { result ≡ stage_behind omits }
{
    if omits {
        Stage::AfterOmit
    } else {
        Stage::AfterMethod
    }
}

// `method⇥NAME`, or `omit⇥NAME` where the line omits. One function, called at one place: twice in the code it would be slower.
pub fn method(s: &[u8], w: &mut [u32], t: Tally, f: Span, omits: bool) -> Result<Tally, Fault>
    requires { Field s.now t w.old f.from f.end }
    ensures { Steps check_method (add_line omits) s.now t w.old f.from f.end result w.new }
{
    let name = &s[f.from..f.end];
    let n = t.methods;
    let stage = stage_behind(omits);
    if !names::is_method_name(name) {
        return Err(Fault::BadName);
    }
    if most(Counted::MethodLines) <= t.lines {
        return Err(Fault::PastMost);
    }
    if let Some(i) = tables::index(s, w, tables::METHODS, n, name) {
        mark(w, t, omits, i);
        return Ok(t.with_line(stage));
    }
    if most(Counted::Methods) <= n {
        return Err(Fault::PastMost);
    }
    tables::put_text(s, w, tables::METHODS + n, f.from, f.end);
    mark(w, t, omits, n);
    Ok(t.with_method(stage))
}

// A record of kind k that may follow.
pub fn field(s: &[u8], w: &mut [u32], t: Tally, k: Kind, f: Span) -> Result<Tally, Fault>
    requires { Field s.now t w.old f.from f.end × (f.clean ≡ all is_text (part f.from f.end s.now)) }
    ensures { Steps (field_check k) (field_add k) s.now t w.old f.from f.end result w.new }
{
    match k {
        Kind::Role => role(s, w, t, f),
        Kind::Constraint => constraint(s, w, t, f),
        Kind::Allow => allow(s, w, t, f),
        Kind::Collection => collection(s, w, t, f),
        Kind::Pattern => pattern(s, w, t, f),
        Kind::Method | Kind::Omit => method(s, w, t, f, k == Kind::Omit),
        Kind::End => Ok(t.at(Stage::AfterEnd)),
    }
}

// A record of kind k.
pub fn step(s: &[u8], w: &mut [u32], t: Tally, k: Kind, f: Span) -> Result<Tally, Fault>
    requires { Field s.now t w.old f.from f.end × (f.clean ≡ all is_text (part f.from f.end s.now)) }
    ensures { StepOutcome s.now (step_from (tables_at s.now t w.old) (record_with k (part f.from f.end s.now))) result w.new }
{
    if !records::may_follow(t.stage, k) {
        return Err(Fault::WrongPlace);
    }
    field(s, w, t, k, f)
}
