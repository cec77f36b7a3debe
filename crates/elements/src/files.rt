// A whole file: what stands before the root element, the root, and what stands behind it.
ghost use Rattle.std.specs.Prelude.{◌≡◌, ◌+◌, ◌≤◌, ◌<◌, length};
ghost use Rattle.text.specs.Texts.{bytes, same};
ghost use Rattle.portals.specs.Readings.{kept_of, root_of};
ghost use Rattle.markup.specs.Places.{Within, place_of, read_at};
ghost use Rattle.ledger.specs.Ledgers.{ledgered, no_records};
ghost use Rattle.ledger.specs.Places.{ledger_at, Fits};
ghost use Rattle.elements.specs.Goings.{read_on, shown_by, Ready, Comes, leading, trailing};

use crate::giving::Went;
use crate::rows::Phase;
use crate::walking;
use markup::answers::Fault;
use markup::{around, tags};
use text::texts;

// So many levels may be opened below the root.
const BELOW_ROOT: usize = 7;

// What stands before the root: the byte order mark, the XML declaration, white space and comments.
pub fn lead(s: &[u8]) -> Result<usize, Fault>
    ensures within { Within s.now 0 (place_of result) }
    ensures exact { result ≡ read_at leading s.now 0 }
{
    let m = around::order_mark(s);
    let p = around::prolog(s, m)?;
    around::asides(s, p)
}

// What stands from `at` on behind the root: white space and comments, and then the end.
pub fn trail(s: &[u8], at: usize) -> Result<usize, Fault>
    requires { at ≤ length s.now }
    ensures within { Within s.now at (place_of result) }
    ensures exact { result ≡ read_at trailing s.now at }
{
    let n = around::asides(s, at)?;
    if n < s.len() {
        return Err(Fault::malformed(n));
    }
    Ok(n)
}

// Whether the name is the root's.
pub fn is_root(name: &[u8]) -> bool
    ensures { result ≡ same name.now (bytes "web-app") }
{
    texts::are_same(name, b"web-app")
}

// The root element at `at`.
pub fn root(s: &[u8], at: usize, w: &mut [u32]) -> Result<Went, Fault>
    requires { Ready s.now at at w.old }
    ensures { Comes s.now (root_of ledgered (ledger_at s.now w.old)) at result w.new }
{
    let t = tags::start_tag(s, at)?;
    if !is_root(&s[at + 1..t.end]) {
        return Err(Fault::malformed(at));
    }
    walking::filling(s, at, BELOW_ROOT, t, Phase::InApp, w)
}

// The file s, its records kept in w: the place behind it, which is its end.
pub fn file(s: &[u8], w: &mut [u32]) -> Result<usize, Fault>
    requires { (length s.now ≤ 65536) × Fits w.old × (ledger_at s.now w.old ≡ no_records) }
    ensures within { place_of result ≤ length s.now }
    ensures exact { shown_by result (ledger_at s.now w.new) ≡ read_on (kept_of ledgered no_records) s.now 0 }
    ensures fits { Fits w.new }
{
    let l = lead(s)?;
    let r = root(s, l, w)?;
    trail(s, r.next)
}
