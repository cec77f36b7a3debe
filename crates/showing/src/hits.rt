// The request of a hit, as the answer shows it.
ghost use Rattle.std.specs.Prelude.{◌≡◌, [], ◌+◌, ◌≤◌, ◌<◌, length, get_or};
ghost use Rattle.std.proofs.Math.Option.{some};
ghost use Rattle.std.proofs.lemmas.List.Edits.{sets};
ghost use Rattle.reading.specs.Views.{ProperView};
ghost use Rattle.trials.specs.Answers.{line_of, caller_fields, answer_of};
ghost use Rattle.grants.specs.Sides.{caller_at, Showable};
ghost use Rattle.grants.specs.Scratch.{stem_path, texts_of};
ghost use Rattle.walks.specs.Walks.{kind_at, ending, hit_path};
ghost use Rattle.showing.specs.Shown.{tried_of, filler_at, Telling, EndingIn, FoundIn, found_request, found_head, found_tail};

use crate::paths;
use fillers::finding;
use firsts::lines;
use grants::scratch;
use reading::held::View;
use walks::walking::Hit;

// How many pattern lines both have.
pub fn line_count(old: &View, new: &View) -> usize
    ensures count { result ≡ length (texts_of old.now new.now) }
    ensures proper { ProperView old.now × ProperView new.now }
{
    new.pattern_count() + old.pattern_count()
}

// The path of stem j, where the filler's number is n; the offset behind it.
pub fn put_stem<'s, 'w>(
    old: &View<'s, 'w>,
    new: &View<'s, 'w>,
    n: usize,
    j: usize,
    out: &mut [u8],
    at: usize,
) -> usize
    requires { at ≤ 1000 }
    ensures offset { result ≡ at + length (stem_path (filler_at n) (kind_at (texts_of old.now new.now) j)) }
    ensures bytes { out.new ≡ sets out.old at (stem_path (filler_at n) (kind_at (texts_of old.now new.now) j)) }
{
    if j < line_count(old, new) {
        return paths::put_stem(out, at, lines::line_text(old, new, j), n);
    }
    paths::put_below(out, at, b"", n)
}

// `.` and the extension of line e; nothing where there is none.
pub fn put_ending<'s, 'w>(
    old: &View<'s, 'w>,
    new: &View<'s, 'w>,
    e: Option<usize>,
    out: &mut [u8],
    at: usize,
) -> usize
    requires { (ProperView old.now × ProperView new.now) × (EndingIn (texts_of old.now new.now) e × (at ≤ 2000)) }
    ensures offset { result ≡ at + length (ending (texts_of old.now new.now) e) }
    ensures bytes { out.new ≡ sets out.old at (ending (texts_of old.now new.now) e) }
{
    let Some(i) = e else {
        return at;
    };
    let text = lines::line_text(old, new, i);
    writing::put(out, at, &text[1..])
}

// Trial method m, whose numbers stand in the scratch w.
pub fn put_method(old: &View, new: &View, w: &[u32], m: usize, out: &mut [u8], at: usize) -> usize
    requires { Telling old.now new.now w.now × ((m < length (tried_of old.now new.now)) × (at ≤ 10000)) }
    ensures offset { result ≡ at + length (get_or (tried_of old.now new.now) m []) }
    ensures bytes { out.new ≡ sets out.old at (get_or (tried_of old.now new.now) m []) }
{
    let i = w[scratch::METHODS + 64 + m] as usize;
    if i < new.method_count() {
        return writing::put(out, at, new.method(i));
    }
    let j = w[scratch::METHODS + m] as usize;
    if j < old.method_count() {
        return writing::put(out, at, old.method(j));
    }
    let n = finding::method_number(old, new);
    writing::put_numbered(out, at, b'Q', n)
}

// The line of caller c of new: 0 not logged in, i + 2 with role i.
pub fn put_caller(new: &View, c: usize, out: &mut [u8], at: usize) -> usize
    requires { ProperView new.now × (Showable new.now.roles c × (at ≤ 10000)) }
    ensures offset { result ≡ at + length (line_of (caller_fields (caller_at new.now.roles c))) }
    ensures bytes { out.new ≡ sets out.old at (line_of (caller_fields (caller_at new.now.roles c))) }
{
    if c == 0 {
        return writing::put(out, at, b"caller\tnone\n");
    }
    let a = writing::put(out, at, b"caller\trole\t");
    let b = writing::put(out, a, new.role(c - 2));
    writing::put(out, b, b"\n")
}

// The path of a hit, where the filler's number is n; the offset behind it.
pub fn put_path<'s, 'w>(
    old: &View<'s, 'w>,
    new: &View<'s, 'w>,
    w: &[u32],
    n: usize,
    f: Hit,
    out: &mut [u8],
    at: usize,
) -> usize
    requires { Telling old.now new.now w.now × (FoundIn old.now new.now f × (at ≤ 1000)) }
    ensures offset { result ≡ at + length (hit_path (filler_at n) (texts_of old.now new.now) f.stem f.ending) }
    ensures bytes { out.new ≡ sets out.old at (hit_path (filler_at n) (texts_of old.now new.now) f.stem f.ending) }
{
    let a = put_stem(old, new, n, f.stem, out, at);
    put_ending(old, new, f.ending, out, a)
}

// What the answer that shows a hit has before the method; the offset behind it.
pub fn put_head<'s, 'w>(
    old: &View<'s, 'w>,
    new: &View<'s, 'w>,
    w: &[u32],
    n: usize,
    f: Hit,
    out: &mut [u8],
) -> usize
    requires { Telling old.now new.now w.now × FoundIn old.now new.now f }
    ensures offset { result ≡ 0 + length (found_head old.now new.now n f) }
    ensures near { result ≤ 1000 }
    ensures bytes { out.new ≡ sets out.old 0 (found_head old.now new.now n f) }
{
    let a = writing::put(out, 0, b"verdict\twider\npath\t");
    let b = put_path(old, new, w, n, f, out, a);
    writing::put(out, b, b"\nmethod\t")
}

// What it has from the method on; the offset behind it.
pub fn put_tail(old: &View, new: &View, w: &[u32], f: Hit, out: &mut [u8], at: usize) -> usize
    requires { Telling old.now new.now w.now × (FoundIn old.now new.now f × (at ≤ 1000)) }
    ensures offset { result ≡ at + length (found_tail old.now new.now f) }
    ensures bytes { out.new ≡ sets out.old at (found_tail old.now new.now f) }
{
    let a = put_method(old, new, w, f.caught.method, out, at);
    let b = writing::put(out, a, b"\n");
    put_caller(new, f.caught.caller, out, b)
}

// The answer that shows a hit; its length.
pub fn put_wider<'s, 'w>(
    old: &View<'s, 'w>,
    new: &View<'s, 'w>,
    w: &[u32],
    n: usize,
    f: Hit,
    out: &mut [u8],
) -> usize
    requires { Telling old.now new.now w.now × FoundIn old.now new.now f }
    ensures size { result ≡ length (answer_of (some (found_request old.now new.now n f))) }
    ensures bytes { out.new ≡ sets out.old 0 (answer_of (some (found_request old.now new.now n f))) }
{
    let a = put_head(old, new, w, n, f, out);
    put_tail(old, new, w, f, out, a)
}
