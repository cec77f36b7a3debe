// The `pattern` lines of two views, new's and then old's.
ghost use Rattle.std.specs.Prelude.{◌≡◌, [], ◌<◌, length, get_or};
ghost use Rattle.firsts.specs.Shares.{lines_in};

use reading::held::View;

// The text of line j of both.
pub fn line_text<'s, 'w>(old: &View<'s, 'w>, new: &View<'s, 'w>, j: usize) -> &'s [u8]
    requires { j < length (lines_in old.now new.now) }
    ensures { result.now ≡ get_or (lines_in old.now new.now) j [] }
{
    let n = new.pattern_count();
    if j < n {
        return new.pattern(j);
    }
    old.pattern(j - n)
}
