// The path of a stem, put into a buffer.
ghost use Rattle.std.specs.Prelude.{◌≡◌, true, ◌+◌, ◌≤◌, length};
ghost use Rattle.std.proofs.lemmas.List.Edits.{sets};
ghost use Rattle.text.specs.Texts.{bytes};
ghost use Rattle.names.specs.Names.{is_pattern};
ghost use Rattle.names.specs.Patterns.{kind_of};
ghost use Rattle.trials.specs.Fillers.{numbered};
ghost use Rattle.trials.specs.Trials.{below};
ghost use Rattle.grants.specs.Scratch.{stem_path};

use text::texts;

// p, `/` and the filler, whose number is n; the offset behind it.
pub fn put_below(out: &mut [u8], at: usize, p: &[u8], n: usize) -> usize
    requires { (at ≤ 1000) × (length p.now ≤ 255) }
    ensures offset { result ≡ at + length (below p.now (numbered (bytes "q") n)) }
    ensures bytes { out.new ≡ sets out.old at (below p.now (numbered (bytes "q") n)) }
{
    let a = writing::put(out, at, p);
    let b = writing::put(out, a, b"/");
    writing::put_numbered(out, b, b'q', n)
}

// The path of the stem of a pattern text; the offset behind it.
pub fn put_stem(out: &mut [u8], at: usize, text: &[u8], n: usize) -> usize
    requires { (at ≤ 1000) × (is_pattern text.now ≡ true) }
    ensures offset { result ≡ at + length (stem_path (numbered (bytes "q") n) (kind_of text.now)) }
    ensures bytes { out.new ≡ sets out.old at (stem_path (numbered (bytes "q") n) (kind_of text.now)) }
{
    if text.is_empty() {
        return writing::put(out, at, b"/");
    }
    if texts::are_same(text, b"/") {
        return put_below(out, at, b"", n);
    }
    if texts::starts_with(b"*.", text) {
        let a = put_below(out, at, b"", n);
        return writing::put(out, a, &text[1..]);
    }
    if let Some(p) = text.strip_suffix(b"/*") {
        return put_below(out, at, p, n);
    }
    writing::put(out, at, text)
}
