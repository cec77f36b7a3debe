// The whole call: both listings read, their texts made numbers, the walk over these, and the answer.
ghost use Rattle.std.specs.Prelude.{◌≡◌, ◌*◌, ◌≤◌, length};
ghost use Rattle.worktable.specs.Work.{zeroed};
ghost use Rattle.listings.specs.Refusals.{reading_of};
ghost use Rattle.walks.specs.Walks.{walked};
ghost use Rattle.showing.specs.Shown.{Telling};
ghost use Rattle.comparisons.specs.Outcomes.{compared_both, compared_old, comparison_for, answer_for, CompareOutcome};
ghost use Rattle.comparing.specs.Tellings.{BothRead, Prepared, IsFiller, IsTrial, compared_hit};

use comparisons::answers;
use comparisons::answers::Comparison;
use fillers::finding;
use grants::scratch::Counts;
use listings::answers::{SHORT_TABLE, SMALL_ANSWER};
use numbers::numbering;
use reading::held::View;
use reading::reader;
use showing::hits;
use walks::walking;
use walks::walking::Hit;

// The answer that a hit is, where the filler's number is n.
pub fn tell<'s, 'w>(
    old: &View<'s, 'w>,
    new: &View<'s, 'w>,
    x: &[u32],
    n: usize,
    h: Option<Hit>,
    answer: &mut [u8],
) -> Comparison
    requires { ((Telling old.now new.now x.now × IsTrial old.now new.now h) × IsFiller old.now new.now n) × (1024 ≤ length answer.old) }
    ensures handed { result ≡ comparison_for (compared_hit old.now new.now h) }
    ensures answer { answer.new ≡ answer_for (compared_hit old.now new.now h) answer.old }
{
    match h {
        None => answers::tell(writing::put(answer, 0, b"verdict\tno wider\n")),
        Some(hit) => answers::tell(hits::put_wider(old, new, x, n, hit, answer)),
    }
}

// The answer of two views once their texts are numbers in the scratch: what the walk finds.
pub fn compare_numbers<'s, 'w>(
    old: &View<'s, 'w>,
    new: &View<'s, 'w>,
    x: &[u32],
    n: usize,
    c: Counts,
    answer: &mut [u8],
) -> Comparison
    requires { (Prepared old.now new.now x.now c × IsFiller old.now new.now n) × (1024 ≤ length answer.old) }
    ensures handed { result ≡ comparison_for (compared_hit old.now new.now (walked x.now c)) }
    ensures answer { answer.new ≡ answer_for (compared_hit old.now new.now (walked x.now c)) answer.old }
{
    let h = walking::walk(x, c);
    tell(old, new, x, n, h, answer)
}

// The listings s and t, whose views these are; x is the scratch.
pub fn compare_held<'s, 'w>(
    s: &[u8],
    t: &[u8],
    old: &View<'s, 'w>,
    new: &View<'s, 'w>,
    x: &mut [u32],
    answer: &mut [u8],
) -> Comparison
    requires { BothRead s.now t.now old.now new.now × ((length x.old ≡ 2048) × (1024 ≤ length answer.old)) }
    ensures handed { result ≡ comparison_for (compared_both s.now t.now) }
    ensures answer { answer.new ≡ answer_for (compared_both s.now t.now) answer.old }
{
    let n = finding::filler_number(old, new, x);
    let c = numbering::number(old, new, x);
    compare_numbers(old, new, x, n, c, answer)
}

// What is compared once old is read into wo and new into wn.
pub fn compare_read(
    old: &[u8],
    new: &[u8],
    wo: &mut [u32],
    wn: &mut [u32],
    x: &mut [u32],
    answer: &mut [u8],
) -> Comparison
    requires { ((length wo.old ≡ 1024) × (length wn.old ≡ 1024)) × ((length x.old ≡ 2048) × (1024 ≤ length answer.old)) }
    ensures handed { result ≡ comparison_for (compared_old old.now new.now (reading_of old.now)) }
    ensures answer { answer.new ≡ answer_for (compared_old old.now new.now (reading_of old.now)) answer.old }
{
    let lo = reader::load(old, wo);
    let ln = reader::load(new, wn);
    match lo {
        Err(r) => answers::refuse(u32::from(r.fault), 1, r.line),
        Ok(to) => match ln {
            Err(r) => answers::refuse(u32::from(r.fault), 2, r.line),
            Ok(tn) => {
                let o = View::new(old, wo, to);
                let n = View::new(new, wn, tn);
                compare_held(old, new, &o, &n, x, answer)
            }
        },
    }
}

// The same with the first 4n numbers of w, which are 0 afterwards: n for each listing, 2n for the scratch.
pub fn compare_with(
    old: &[u8],
    new: &[u8],
    answer: &mut [u8],
    w: &mut [u32],
    n: usize,
) -> Comparison
    requires { ((n ≡ 1024) × (4 * n ≤ length w.old)) × (1024 ≤ length answer.old) }
    ensures handed { result ≡ comparison_for (compared_old old.now new.now (reading_of old.now)) }
    ensures answer { answer.new ≡ answer_for (compared_old old.now new.now (reading_of old.now)) answer.old }
    ensures work { w.new ≡ zeroed (4 * n) w.old }
{
    let (wo, rest) = w.split_at_mut(n);
    let (wn, x) = rest.split_at_mut(n);
    let c = compare_read(old, new, wo, wn, &mut x[..2 * n], answer);
    worktable::zero_first(w, 4 * n);
    c
}

// The least answer buffer, in bytes.
pub const ANSWER: usize = 1024;

// A quarter of the work table's first numbers: one for each listing, two for the scratch.
const SHARE: usize = 1024;

// Compares a new listing with an old one: the answer is the verdict's text, in the first `length` bytes of the answer buffer.
#[unsafe(no_mangle)]
pub extern "C" fn budquarry_compare(
    old: &[u8],
    new: &[u8],
    answer: &mut [u8],
    work: &mut [u32],
) -> Comparison
    ensures { CompareOutcome old.now new.now answer.old work.old result answer.new work.new }
{
    if worktable::is_short(work) {
        return answers::refuse(SHORT_TABLE, 0, 0);
    }
    if answer.len() < ANSWER {
        worktable::zero_first(work, worktable::WORK);
        return answers::refuse(SMALL_ANSWER, 0, 0);
    }
    compare_with(old, new, answer, work, SHARE)
}
