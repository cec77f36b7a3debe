// Elements and what they hold, read by functions that call each other: below an element one level fewer is left.
ghost use Rattle.std.specs.Prelude.{◌≡◌, ◌+◌, ◌-◌, ◌≤◌, length, drop};
ghost use Rattle.documents.specs.Chars.{after};
ghost use Rattle.markup.specs.Places.{Within, place_of};
ghost use Rattle.portals.specs.Elements.{sort_of, opening};
ghost use Rattle.portals.specs.Readings.{straying, complete, closing, node_in};
ghost use Rattle.ledger.specs.Places.{ledger_at};
ghost use Rattle.elements.specs.Rows.{phase_at, passing, opening_of, effect_at, FittingRow};
ghost use Rattle.elements.specs.Goings.{reached_at, Ready, Entered, Comes, Passes, opened_by, content_at, element_at, filling_at, holding_at, entering_at};

use crate::giving::Went;
use crate::rows::{Holder, Opening, Phase};
use crate::{giving, rows};
use markup::answers::{Cause, Fault, Start};
use markup::{chars, comments, letters, tags, words};

// A byte of text at `at`, in an element whose first tag stands at `here`.
pub fn stray(s: &[u8], at: usize, here: usize, phase: Phase) -> Result<usize, Fault>
    requires { (at ≤ length s.now) × (here ≤ at) }
    ensures within { place_of result ≤ length s.now }
    ensures exact { Passes s.now phase (straying (length s.now - here)) at result }
{
    let b = letters::letter(s, at, here)?;
    match phase {
        Phase::PassedOver => Ok(b.next),
        _ if chars::is_white(b.byte) => Ok(b.next),
        _ => Err(Fault::malformed(here)),
    }
}

// The end of an element whose first tag at `at`, up to `next`, has no content.
pub fn ended(s: &[u8], at: usize, next: usize, phase: Phase) -> Result<usize, Fault>
    requires { (at ≤ length s.now) × (next ≤ length s.now) }
    ensures within { place_of result ≤ length s.now }
    ensures exact { Passes s.now phase (complete (length s.now - at)) next result }
{
    if rows::is_whole(phase) {
        return Ok(next);
    }
    Err(Fault::malformed(at))
}

// The second tag of an element of that name at `at`; what is missing is missed there.
pub fn close(s: &[u8], at: usize, name: &[u8], phase: Phase) -> Result<usize, Fault>
    requires { at ≤ length s.now }
    ensures within { place_of result ≤ length s.now }
    ensures exact { Passes s.now phase (closing name.now) at result }
{
    let next = tags::second_tag(s, at, name)?;
    ended(s, at, next, phase)
}

// What a first tag of that name comes to.
pub fn row_at(name: &[u8], phase: Phase) -> Opening
    ensures is { opening_of result ≡ opening (phase_at phase) (sort_of name.now) }
    ensures fitting { FittingRow result }
{
    rows::row_of(phase, rows::sort_of(name))
}

// A node at `at`: a byte of text, a comment or an element.
#[cycle(children_content_element_enter_filling_node)]
pub fn node(
    s: &[u8],
    at: usize,
    left: usize,
    here: usize,
    phase: Phase,
    w: &mut [u32],
) -> Result<Went, Fault>
    requires { Ready s.now at here w.old }
    ensures { Comes s.now (node_in (element_at left) (length s.now - here) (reached_at s.now phase w.old)) at result w.new }
{
    if !words::is_tag(s, at) {
        let next = stray(s, at, here, phase)?;
        return Ok(Went { next, phase });
    }
    if words::is_comment(s, at) {
        let next = comments::comment(s, at)?;
        return Ok(Went { next, phase });
    }
    element(s, at, left, phase, w)
}

// The place behind the bytes of text at `at` that may stand there as they are.
pub fn pass(s: &[u8], at: usize, phase: Phase) -> usize
    requires { at ≤ length s.now }
    ensures within { Within s.now at result }
    ensures exact { drop result s.now ≡ after (passing phase) (drop at s.now) }
{
    match phase {
        Phase::PassedOver => words::plain_end(s, at),
        _ => words::white(s, at),
    }
}

// The content from `at` on of the element whose first tag stands at `here`: nodes, up to `</` or the end.
#[cycle(children_content_element_enter_filling_node)]
pub fn content(
    s: &[u8],
    at: usize,
    left: usize,
    here: usize,
    phase: Phase,
    w: &mut [u32],
) -> Result<Went, Fault>
    requires { Ready s.now at here w.old }
    ensures { Comes s.now (content_at left (length s.now - here) (reached_at s.now phase w.old)) at result w.new }
{
    // Kept: no `for` goes here, since a turn begins where the node before it ended, and ends the function where that is at fault.
    let mut n = pass(s, at, phase);
    let mut p = phase;
    while !words::is_end(s, n) {
        let g = node(s, n, left, here, p, w)?;
        n = pass(s, g.next, g.phase);
        p = g.phase;
    }
    Ok(Went { next: n, phase: p })
}

// What the element whose first tag t stands at `at` holds, to its end.
#[cycle(children_content_element_enter_filling_node)]
pub fn filling(
    s: &[u8],
    at: usize,
    left: usize,
    t: Start,
    first: Phase,
    w: &mut [u32],
) -> Result<Went, Fault>
    requires { Entered s.now at t w.old }
    ensures { Comes s.now (filling_at left (length s.now - at) (opened_by s.now at t) (reached_at s.now first w.old)) t.next result w.new }
{
    if !t.full {
        let next = ended(s, at, t.next, first)?;
        return Ok(Went { next, phase: first });
    }
    let c = content(s, t.next, left, at, first, w)?;
    let next = close(s, c.next, &s[at + 1..t.end], c.phase)?;
    Ok(Went {
        next,
        phase: c.phase,
    })
}

// The element that holds content, behind its first tag t at `at`.
#[cycle(children_content_element_enter_filling_node)]
pub fn children(
    s: &[u8],
    at: usize,
    left: usize,
    t: Start,
    holder: Holder,
    w: &mut [u32],
) -> Result<Went, Fault>
    requires { Entered s.now at t w.old }
    ensures { Comes s.now (holding_at left (length s.now - at) (opened_by s.now at t) (phase_at holder.next) (phase_at holder.first) (effect_at holder.effect) (ledger_at s.now w.old)) t.next result w.new }
{
    giving::begin(s, at, holder.effect, w)?;
    let z = filling(s, at, left, t, holder.first, w)?;
    Ok(Went {
        next: z.next,
        phase: holder.next,
    })
}

// An element that opens so, behind its first tag t at `at`, where so many levels may still be opened. Out of place goes before too deep, and that before refused.
#[cycle(children_content_element_enter_filling_node)]
pub fn enter(
    s: &[u8],
    at: usize,
    left: usize,
    phase: Phase,
    t: Start,
    row: Opening,
    w: &mut [u32],
) -> Result<Went, Fault>
    requires { Entered s.now at t w.old × FittingRow row }
    ensures { Comes s.now (entering_at left (length s.now - at) (opened_by s.now at t) (reached_at s.now phase w.old) (opening_of row)) t.next result w.new }
{
    let cause = match row {
        Opening::Misplaced => Cause::Malformed,
        _ if left == 0 => Cause::Deep,
        Opening::Refused => Cause::Unwanted,
        Opening::Says(leaf) => return giving::text(s, at, t, leaf, w),
        Opening::Holds(holder) if rows::lacks(t.full, holder.first) => Cause::Malformed,
        Opening::Holds(holder) => return children(s, at, left - 1, t, holder, w),
    };
    Err(Fault { cause, at })
}

// An element at `at`, where so many levels may still be opened.
#[cycle(children_content_element_enter_filling_node)]
pub fn element(s: &[u8], at: usize, left: usize, phase: Phase, w: &mut [u32]) -> Result<Went, Fault>
    requires { Ready s.now at at w.old }
    ensures { Comes s.now (element_at left (reached_at s.now phase w.old)) at result w.new }
{
    let t = tags::start_tag(s, at)?;
    let row = row_at(&s[at + 1..t.end], phase);
    enter(s, at, left, phase, t, row, w)
}
