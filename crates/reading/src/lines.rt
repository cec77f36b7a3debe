// The line at an offset of the listing, cut.
ghost use Rattle.std.specs.Prelude.{◌≡◌, ◌<◌, length, get_or, eqb};
ghost use Rattle.text.specs.Texts.{newline};
ghost use Rattle.reading.specs.Cuts.{cut_by, cut_of};

use entries::steps::Span;
use listings::records;
use listings::records::Kind;
use text::texts;

// A line, cut: the record that it names, its field, and whether a byte 10 stands behind that.
#[derive(Clone, Copy)]
pub struct Cut {
    pub kind: Option<Kind>,
    pub field: Span,
    pub whole: bool,
}

// Whether a byte 10 stands at e.
pub fn ends_at(text: &[u8], e: usize) -> bool
    ensures { result ≡ eqb (get_or text.now e 0) newline }
{
    e < text.len() && text[e] == b'\n'
}

// The line at an offset of the text. Where it names no record, its field begins with it.
// Kept: each arm scans for itself; where one scan served both, a line took up to 12 instructions more.
pub fn cut_at(text: &[u8], at: usize) -> Cut
    requires { at < length text.now }
    ensures { result ≡ cut_of text.now at }
{
    match records::head(&text[at..]) {
        Some(head) => cut_from(text, Some(head.kind), at + head.size),
        None => cut_from(text, None, at),
    }
}

// The line that names that record, or none, and whose field begins at `from`.
fn cut_from(text: &[u8], kind: Option<Kind>, from: usize) -> Cut
    ensures { result ≡ cut_by text.now kind from }
{
    let field = texts::scan(text, from);
    Cut {
        kind,
        field: Span {
            from,
            end: field.end,
            clean: field.clean,
        },
        whole: ends_at(text, field.end),
    }
}
