// The best pattern, the constraints taken for it, and the answer.
ghost use Rattle.std.specs.Prelude.{◌≡◌, ◌<◌, length};
ghost use Rattle.reading.specs.Views.{texts};
ghost use Rattle.matching.specs.Strengths.{leading};
ghost use Rattle.deciding.specs.Joinings.{join_with, is_line_for, joined_up_to, joined_answer};

use callers::Who;
use decisions::answers::Answer;
use matching::Leading;
use reading::held::{Access, View};
use text::texts;

// The strongest of the listing's patterns.
pub fn strongest(view: &View, path: &[u8]) -> Leading
    ensures { result ≡ leading (texts view.now) path.now }
{
    let e = matching::ending_of(path);
    let mut x = Leading {
        seen: 0,
        at: 0,
        most: 0,
    };
    for k in 0..view.pattern_count() {
        x = matching::lead_with(x, view.pattern(k), path, e);
    }
    x
}

// What the constraints taken so far come to: whether there is one, one that closes, one that frees, and the roles that they allow.
// Kept: `join_with`, `joined_up_to` and `joined_answer` of deciding/specs are stated with these three facts and the roles.
#[derive(Clone, Copy)]
pub struct Joined {
    pub any: bool,
    pub closed: bool,
    pub free: bool,
    pub roles: u64,
}

impl Joined {
    // With one constraint more.
    pub fn with(self, a: Access) -> Joined
        ensures { result ≡ join_with self a }
    {
        match a {
            Access::Open => Joined {
                any: true,
                free: true,
                ..self
            },
            Access::Closed => Joined {
                any: true,
                closed: true,
                ..self
            },
            Access::ByRole(x) => Joined {
                any: true,
                roles: self.roles | x,
                ..self
            },
        }
    }
}

// Whether pattern line k has that text, and its collection covers method m, an index into the listing's methods or their number.
pub fn is_line_for(view: &View, text: &[u8], m: usize, k: usize) -> bool
    requires { (m < 32) × (k < length (texts view.now)) }
    ensures { result ≡ is_line_for view.now text.now m k }
{
    texts::are_same(view.pattern(k), text) && (view.cover(k) >> (m % 32) as u32) % 2 == 1
}

// What the constraints come to that are taken for that pattern text and method m.
pub fn join_lines(view: &View, text: &[u8], m: usize) -> Joined
    requires { m < 32 }
    ensures { result ≡ joined_up_to view.now text.now m (length (texts view.now)) }
{
    let mut j = Joined {
        any: false,
        closed: false,
        free: false,
        roles: 0,
    };
    for k in 0..view.pattern_count() {
        if is_line_for(view, text, m, k) {
            j = j.with(view.access(k));
        }
    }
    j
}

// The answer to a caller.
#[tactic(auto, unfolding(crate::specs::Joinings::joined_answer))]
pub fn answer_to(j: Joined, who: Who) -> Answer
    ensures { result ≡ joined_answer j who }
{
    if !j.any {
        return Answer::Open;
    }
    if j.closed {
        return Answer::Closed;
    }
    if j.free {
        return Answer::Open;
    }
    match who {
        Who::Nobody => Answer::LoginWanted,
        Who::Roles(x) if x & j.roles == 0 => Answer::RoleLacking,
        Who::Roles(_) => Answer::ByRole,
    }
}
