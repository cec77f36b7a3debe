// What an element gives: a record where it begins, or the text that it is.
ghost use Rattle.std.specs.Prelude.{◌≡◌, true, ◌-◌, ◌≤◌, length, take, IfOk};
ghost use Rattle.portals.specs.Readings.{telling};
ghost use Rattle.markup.specs.Places.{place_of};
ghost use Rattle.markup.specs.Tallies.{gathered_at};
ghost use Rattle.ledger.specs.Places.{text_at, ledger_at, kind_by, number_of, Fits, Offered};
ghost use Rattle.elements.specs.Rows.{phase_at, is_text_kind};
ghost use Rattle.elements.specs.Goings.{read_on, shown_by, Tagged, Entered, Saying, Comes, Given, Done, opened_by, adding_at, saying_at};

use crate::rows::{Effect, Leaf, Phase};
use ledger::adding;
use ledger::items::Item;
use markup::answers::{Fault, Start};
use markup::gathering::Gathered;
use markup::{gathering, tags};

// Where reading got to: the place behind what was read, and the phase there.
#[derive(Clone, Copy)]
pub struct Went {
    pub next: usize,
    pub phase: Phase,
}

// The record of that kind, whose text t stands at `place`, of the element whose first tag stands at `at`: a rule that it breaks is a fault there.
pub fn give(
    s: &[u8],
    at: usize,
    w: &mut [u32],
    item: Item,
    place: usize,
    t: &[u8],
) -> Result<(), Fault>
    requires { Offered s.now w.old (number_of item) place t.now × (at ≤ length s.now) }
    ensures { Given s.now at place item w.old result w.new }
{
    adding::add(s, w, item, place, t).map_err(|cause| Fault { cause, at })
}

// What the element whose first tag stands at `at` does where it begins.
pub fn begin(s: &[u8], at: usize, effect: Effect, w: &mut [u32]) -> Result<(), Fault>
    requires { (at ≤ length s.now) × (length s.now ≤ 65536) × Fits w.old }
    ensures { Done s.now at effect w.old result w.new }
{
    match effect {
        Effect::Opens => give(s, at, w, Item::Open, at, b"open"),
        Effect::Collects => give(s, at, w, Item::Collection, at, b""),
        Effect::Guards => {
            adding::guard(w);
            Ok(())
        }
        Effect::Nothing => Ok(()),
    }
}

// The record of a text t that stands at `place`, of the element whose first tag stands at `at`. Reading goes on at `next`.
pub fn say(
    s: &[u8],
    at: usize,
    place: usize,
    next: usize,
    leaf: Leaf,
    t: &[u8],
    w: &mut [u32],
) -> Result<Went, Fault>
    requires { Saying s.now at place next leaf.item t.now w.old }
    ensures { Comes s.now (adding_at (length s.now - at) (phase_at leaf.next) (kind_by (number_of leaf.item)) t.now (ledger_at s.now w.old)) next result w.new }
{
    give(s, at, w, leaf.item, place, t)?;
    Ok(Went {
        next,
        phase: leaf.next,
    })
}

// The text that follows the first tag t at `at`, into out, and the second tag. What doesn't fit is not written, and counted all the same. Beside a fault too, a text that fits stands in out.
pub fn tell(s: &[u8], at: usize, t: Start, out: &mut [u8]) -> Result<Gathered, Fault>
    requires { Tagged s.now at t × (t.full ≡ true) }
    ensures within { place_of (gathered_at result) ≤ length s.now }
    ensures exact { shown_by (gathered_at result) (text_at s.now t.next) ≡ read_on (telling (length s.now - at) (opened_by s.now at t)) s.now t.next }
    ensures size { IfOk result (λ g. g.len ≡ length (text_at s.now t.next)) }
    ensures text { length (text_at s.now t.next) ≤ length out.new → take (length (text_at s.now t.next)) out.new ≡ text_at s.now t.next }
    ensures kept { length out.new ≡ length out.old }
{
    let g = gathering::gather(s, t.next, at, out)?;
    let next = tags::second_tag(s, g.next, &s[at + 1..t.end])?;
    Ok(Gathered { len: g.len, next })
}

// The element that is a text, behind its first tag t at `at`, which has content.
pub fn text_in(s: &[u8], at: usize, t: Start, leaf: Leaf, w: &mut [u32]) -> Result<Went, Fault>
    requires { Entered s.now at t w.old × (is_text_kind (number_of leaf.item) ≡ true) × (t.full ≡ true) }
    ensures { Comes s.now (saying_at (length s.now - at) (opened_by s.now at t) (phase_at leaf.next) (kind_by (number_of leaf.item)) (ledger_at s.now w.old)) t.next result w.new }
{
    // Kept: fixed memory, no heap: a text has 255 bytes at most, and stands in the first `len` of these.
    let mut letters = [0u8; 256];
    let g = tell(s, at, t, &mut letters)?;
    if 255 < g.len {
        let cause = adding::too_long_fault(leaf.item);
        return Err(Fault { cause, at });
    }
    say(s, at, t.next, g.next, leaf, &letters[..g.len], w)
}

// The element that is a text, behind its first tag t at `at`.
pub fn text(s: &[u8], at: usize, t: Start, leaf: Leaf, w: &mut [u32]) -> Result<Went, Fault>
    requires { Entered s.now at t w.old × (is_text_kind (number_of leaf.item) ≡ true) }
    ensures { Comes s.now (saying_at (length s.now - at) (opened_by s.now at t) (phase_at leaf.next) (kind_by (number_of leaf.item)) (ledger_at s.now w.old)) t.next result w.new }
{
    if t.full {
        return text_in(s, at, t, leaf, w);
    }
    say(s, at, at, t.next, leaf, b"", w)
}
