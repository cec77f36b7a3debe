// The whole call: reading the listing, then the request, then the answer.
ghost use Rattle.std.specs.Prelude.{◌≡◌, true, ◌≤◌, length};
ghost use Rattle.worktable.specs.Work.{zeroed};
ghost use Rattle.listings.specs.Refusals.{reading_of};
ghost use Rattle.entries.specs.Room.{listing_room};
ghost use Rattle.reading.specs.Holds.{ListingHeld, LoadOutcome};
ghost use Rattle.decisions.specs.Paths.{dropped};
ghost use Rattle.decisions.specs.Requests.{is_path};
ghost use Rattle.deciding.specs.Outcomes.{refused, answered, asked, DecideOutcome, decide_listing, decide_request};
ghost use Rattle.deciding.specs.Deciders.{answer_for};

use crate::answers::Decision;
use crate::joining;
use callers::Who;
use decisions::answers::Answer;
use entries::tables::Tally;
use listings::answers::{BAD_CALLER, BAD_METHOD, BAD_PATH, SHORT_TABLE};
use reading::held::View;
use reading::reader;
use reading::reader::Refusal;
use text::texts;

// A refusal, whose answer is 0.
pub fn refuse(number: u32, side: u32, line: u32) -> Decision
    ensures { result ≡ refused number side line }
{
    Decision {
        report: listings::answers::refuse(number, side, line),
        answer: 0,
    }
}

// An answer, by its number.
pub fn tell(answer: u32) -> Decision
    ensures { result ≡ answered answer }
{
    Decision {
        report: listings::answers::accept(),
        answer,
    }
}

// The answer to a caller for a path without parameters and a method.
pub fn answer_at(view: &View, path: &[u8], method: &[u8], who: Who) -> Answer
    ensures { result ≡ answer_for view.now path.now method.now who }
{
    let best = joining::strongest(view, path);
    if best.most == 0 {
        return Answer::Open;
    }
    let m = view.method_index(method);
    let j = joining::join_lines(view, view.pattern(best.at), m);
    joining::answer_to(j, who)
}

// The answer to a caller for a path as received and a method: one without ';' is taken as it is, and of any other what is left without its parameters.
pub fn answer_for(view: &View, path: &[u8], method: &[u8], who: Who) -> Answer
    requires { is_path path.now ≡ true }
    ensures { result ≡ answer_for view.now (dropped path.now) method.now who }
{
    if !texts::has_byte(b';', path) {
        return answer_at(view, path, method, who);
    }
    // Kept: fixed memory, no heap: a path has 1,024 bytes at most, and what is left of it stands in the first n of these.
    let mut kept = [0; 1024];
    let n = matching::drop_into(&mut kept, path);
    answer_at(view, &kept[..n], method, who)
}

// A request to the listing s, whose view it is.
pub fn decide_held(
    s: &[u8],
    view: &View,
    path: &[u8],
    method: &[u8],
    login: u32,
    names: &[u8],
) -> Decision
    requires { ListingHeld s.now view.now }
    ensures { result ≡ decide_request (asked s.now path.now method.now login names.now) }
{
    if !matching::is_path(path) {
        return refuse(BAD_PATH, 0, 0);
    }
    if !names::is_method_name(method) {
        return refuse(BAD_METHOD, 0, 0);
    }
    let Some(who) = callers::caller(view, login, names) else {
        return refuse(BAD_CALLER, 0, 0);
    };
    tell(u32::from(answer_for(view, path, method, who)))
}

// What is decided once the listing is read into w.
pub fn decide_loaded(
    l: Result<Tally, Refusal>,
    s: &[u8],
    w: &[u32],
    path: &[u8],
    method: &[u8],
    login: u32,
    names: &[u8],
) -> Decision
    requires { LoadOutcome s.now l w.now }
    ensures { result ≡ decide_listing (asked s.now path.now method.now login names.now) (reading_of s.now) }
{
    match l {
        Err(r) => refuse(u32::from(r.fault), 1, r.line),
        Ok(t) => decide_held(s, &View::new(s, w, t), path, method, login, names),
    }
}

// The same with the first n numbers of w, which are 0 afterwards.
pub fn decide_with(
    s: &[u8],
    path: &[u8],
    method: &[u8],
    login: u32,
    names: &[u8],
    w: &mut [u32],
    n: usize,
) -> Decision
    requires { (listing_room ≤ n) × (n ≤ length w.old) }
    ensures handed { result ≡ decide_listing (asked s.now path.now method.now login names.now) (reading_of s.now) }
    ensures work { w.new ≡ zeroed n w.old }
{
    let l = reader::load(s, &mut w[..n]);
    let d = decide_loaded(l, s, &w[..n], path, method, login, names);
    worktable::zero_first(w, n);
    d
}

// Decides one request: open 1, by role 2, closed 3, login wanted 4, role lacking 5; 0 beside a refusal. login is 0, not logged in, or
// 1; names are the caller's role names, each ended by byte 10.
#[unsafe(no_mangle)]
pub extern "C" fn budquarry_decide(
    listing: &[u8],
    path: &[u8],
    method: &[u8],
    login: u32,
    roles: &[u8],
    work: &mut [u32],
) -> Decision
    ensures { DecideOutcome (asked listing.now path.now method.now login roles.now) work.old result work.new }
{
    if worktable::is_short(work) {
        return refuse(SHORT_TABLE, 0, 0);
    }
    decide_with(listing, path, method, login, roles, work, worktable::WORK)
}
