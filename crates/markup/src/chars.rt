// The kinds of bytes, by comparisons, those that are met most often first, and those of a name by a table too.
ghost use Rattle.std.specs.Prelude.{◌≡◌};
ghost use Rattle.documents.specs.Chars.{is_white, is_char, is_plain, is_name_start, is_name_byte, is_quote};

// Which bytes are of a name: 1 for each that is.
const NAME: &[u8; 256] = b"\
    \x00\x00\x00\x00\x00\x00\x00\x00\x00\x00\x00\x00\x00\x00\x00\x00\
    \x00\x00\x00\x00\x00\x00\x00\x00\x00\x00\x00\x00\x00\x00\x00\x00\
    \x00\x00\x00\x00\x00\x00\x00\x00\x00\x00\x00\x00\x00\x01\x01\x00\
    \x01\x01\x01\x01\x01\x01\x01\x01\x01\x01\x01\x00\x00\x00\x00\x00\
    \x00\x01\x01\x01\x01\x01\x01\x01\x01\x01\x01\x01\x01\x01\x01\x01\
    \x01\x01\x01\x01\x01\x01\x01\x01\x01\x01\x01\x00\x00\x00\x00\x01\
    \x00\x01\x01\x01\x01\x01\x01\x01\x01\x01\x01\x01\x01\x01\x01\x01\
    \x01\x01\x01\x01\x01\x01\x01\x01\x01\x01\x01\x00\x00\x00\x00\x00\
    \x01\x01\x01\x01\x01\x01\x01\x01\x01\x01\x01\x01\x01\x01\x01\x01\
    \x01\x01\x01\x01\x01\x01\x01\x01\x01\x01\x01\x01\x01\x01\x01\x01\
    \x01\x01\x01\x01\x01\x01\x01\x01\x01\x01\x01\x01\x01\x01\x01\x01\
    \x01\x01\x01\x01\x01\x01\x01\x01\x01\x01\x01\x01\x01\x01\x01\x01\
    \x01\x01\x01\x01\x01\x01\x01\x01\x01\x01\x01\x01\x01\x01\x01\x01\
    \x01\x01\x01\x01\x01\x01\x01\x01\x01\x01\x01\x01\x01\x01\x01\x01\
    \x01\x01\x01\x01\x01\x01\x01\x01\x01\x01\x01\x01\x01\x01\x01\x01\
    \x01\x01\x01\x01\x01\x01\x01\x01\x01\x01\x01\x01\x01\x01\x01\x01";

// Whether b is white space.
// Kept: `matches!`, whose branches fall away in `is_plain` and `gathering::keep`; by `==` four times a text takes up to half as long again. `words::white` has it so.
#[tactic(auto, unfolding(documents::specs::Chars::is_white))]
pub fn is_white(b: u8) -> bool
    ensures { result ≡ is_white b }
{
    matches!(b, b' ' | b'\t' | b'\n' | b'\r')
}

// Whether b may stand in a file.
#[tactic(auto, unfolding(documents::specs::Chars::is_char))]
pub fn is_char(b: u8) -> bool
    ensures { result ≡ is_char b }
{
    b >= b' ' || is_white(b)
}

// Whether b stands for itself in a text.
#[tactic(auto, unfolding(documents::specs::Chars::is_plain, documents::specs::Chars::is_char, documents::specs::Chars::is_white))]
pub fn is_plain(b: u8) -> bool
    ensures { result ≡ is_plain b }
{
    b > b'<' || is_char(b) && b != b'<' && b != b'&'
}

// Whether b is the start of a name.
#[tactic(auto, unfolding(documents::specs::Chars::is_name_start))]
pub fn is_name_start(b: u8) -> bool
    ensures { result ≡ is_name_start b }
{
    matches!(b, b'a'..=b'z') || matches!(b, b'A'..=b'Z' | b'_' | b':' | 128..)
}

// Whether b is a byte of a name.
// Kept: a to z come first, by one branch, then `-`, and the others from the table. By comparisons alone a name of small letters takes three times as long, or one of digits or capitals twice.
#[tactic(auto, unfolding(documents::specs::Chars::is_name_start, documents::specs::Chars::is_name_byte))]
pub fn is_name_byte(b: u8) -> bool
    ensures { result ≡ is_name_byte b }
{
    matches!(b, b'a'..=b'z') || (b == b'-') | (NAME[b as usize] == 1)
}

// Whether b is a quote.
#[tactic(auto, unfolding(documents::specs::Chars::is_quote))]
pub fn is_quote(b: u8) -> bool
    ensures { result ≡ is_quote b }
{
    matches!(b, b'"' | b'\'')
}
