// How many bytes two texts share from their start. What a text shares with one line often tells what it shares with another, without a look at
// the texts: each line but the first has a *nearest* one before it, and it is known how much the two share.
// In the scratch stand, 256 of each: first the nearest lines, then what each line shares with its nearest, then what a text shares with each line.
ghost use Rattle.std.specs.Prelude.{◌≡◌, [], ◌+◌, get_or, drop};
ghost use Rattle.firsts.specs.Shares.{common, lines_in, Sharing};

use crate::lines;
use reading::held::View;

// Where each list begins, behind the nearest lines.
pub const SHARED: usize = 256;

pub const COMMON: usize = 512;

// How many bytes t and u share from offset `from` on, and `from` more.
pub fn shared_from(t: &[u8], u: &[u8], from: usize) -> usize
    ensures { result ≡ from + common (drop from t.now) (drop from u.now) }
{
    let end = t.len().min(u.len());
    for i in from..end {
        if t[i] != u[i] {
            return i;
        }
    }
    end.max(from)
}

// What a text shares with line i, where it is known for the lines before it.
pub fn shared_with<'s, 'w>(
    old: &View<'s, 'w>,
    new: &View<'s, 'w>,
    w: &[u32],
    text: &[u8],
    i: usize,
) -> usize
    requires { Sharing old.now new.now text.now i w.now }
    ensures { result ≡ common text.now (get_or (lines_in old.now new.now) i []) }
{
    let p = w[i] as usize;
    if i <= p {
        return shared_from(text, lines::line_text(old, new, i), 0);
    }
    let x = w[COMMON + p] as usize;
    let y = w[SHARED + i] as usize;
    if x != y {
        return x.min(y);
    }
    shared_from(text, lines::line_text(old, new, i), x)
}
