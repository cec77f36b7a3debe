// The lent work table around a call: how long it has to be, and what is left in it.
#![tactic(auto)]

ghost use Rattle.std.specs.Prelude.{◌≡◌, ◌≤◌, length};
ghost use Rattle.worktable.specs.Work.{is_short, zeroed};

// How many numbers a call asks for.
pub const WORK: usize = 4096;

// Whether a work table is too short for a call.
pub fn is_short(w: &[u32]) -> bool
    ensures { result ≡ is_short w.now }
{
    w.len() < WORK
}

// The first n numbers become 0.
pub fn zero_first(w: &mut [u32], n: usize)
    requires { n ≤ length w.old }
    ensures { w.new ≡ zeroed n w.old }
{
    w[..n].fill(0);
}
