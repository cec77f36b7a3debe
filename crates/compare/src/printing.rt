// The text that the program prints.
ghost use Rattle.std.specs.Prelude.{◌≡◌, ◌∷◌, ◌+◌, ◌≤◌, length};
ghost use Rattle.std.proofs.lemmas.List.Edits.{sets};
ghost use Rattle.text.specs.Texts.{tab};
ghost use Rattle.compare.specs.Printed.{decimal, where_text, refusal_line, written, PrintOutcome};

use comparing::comparer;

// Puts a tab and a number at an offset, and hands back the offset behind it.
fn put_field(text: &mut [u8], at: usize, n: u32) -> usize
    requires { at ≤ 1000 }
    ensures offset { result ≡ at + length (tab ∷ decimal n) }
    ensures bytes { text.new ≡ sets text.old at (tab ∷ decimal n) }
    ensures size { result ≤ at + 11 }
{
    let a = writing::put(text, at, b"\t");
    writing::put_digits(text, a, n as usize, 10)
}

// Puts the two last fields of a refusal's line and its byte 10 at an offset, and hands back the offset behind them.
fn put_where(text: &mut [u8], at: usize, side: u32, line: u32) -> usize
    requires { at ≤ 100 }
    ensures offset { result ≡ at + length (where_text side line) }
    ensures bytes { text.new ≡ sets text.old at (where_text side line) }
{
    let a = put_field(text, at, side);
    let b = put_field(text, a, line);
    writing::put(text, b, b"\n")
}

// Puts the line of a refusal at the start, and hands back its length.
fn put_refusal(text: &mut [u8], number: u32, side: u32, line: u32) -> usize
    requires { 1024 ≤ length text.old }
    ensures size { result ≡ length (refusal_line number side line) }
    ensures bytes { text.new ≡ written (refusal_line number side line) text.old }
{
    let a = writing::put(text, 0, b"refused");
    let b = put_field(text, a, number);
    put_where(text, b, side, line)
}

// Puts what is printed of two listings at the start of text, and hands back its length.
pub fn compare_into<'a>(old: &'a [u8], new: &'a [u8], text: &mut [u8], work: &mut [u32]) -> usize
    requires { (1024 ≤ length text.old) × (4096 ≤ length work.old) }
    ensures outcome { PrintOutcome old.now new.now text.old work.old result text.new work.new }
    ensures fits { result ≤ length text.new }
{
    let c = comparer::budquarry_compare(old, new, text, work);
    let r = c.report;
    if r.number == 0 {
        return c.length as usize;
    }
    put_refusal(text, r.number, r.side, r.line)
}
