// The reader: line by line over a lent listing, with the lent work table as its memory. `load` makes it, and all of the listing is read through it.
ghost use Rattle.std.specs.Prelude.{◌≡◌, ◌+◌, ◌≤◌, ◌<◌, length, drop};
ghost use Rattle.text.specs.Texts.{bytes, all, part, starts_with};
ghost use Rattle.text.specs.Bytes.{is_text};
ghost use Rattle.text.specs.Lines.{lines_of};
ghost use Rattle.listings.specs.Records.{record_named};
ghost use Rattle.listings.specs.Refusals.{reading_of};
ghost use Rattle.reading.specs.Outcomes.{report_of, ReadOutcome};
ghost use Rattle.worktable.specs.Work.{zeroed};
ghost use Rattle.limits.specs.Limits.{most_bytes};
ghost use Rattle.entries.specs.Room.{listing_room};
ghost use Rattle.entries.specs.Tables.{Fits, Field, tables_at, start_tables};
ghost use Rattle.reading.specs.Fillings.{LineEnd, LineOutcome, FillOutcome, line_with, line_from, fill_from, closed_at};
ghost use Rattle.reading.specs.Readers.{Ready, gone_first};
ghost use Rattle.reading.specs.Holds.{LoadOutcome, reading_shown};

use crate::lines;
use crate::lines::Cut;
use entries::steps;
use entries::tables::Tally;
use limits::{Counted, most};
use listings::answers;
use listings::answers::{Fault, Report};
use listings::records::Kind;
use text::texts;

// An offset in the listing: the next byte, and the number of its line.
#[derive(Clone, Copy)]
pub struct Cursor {
    pub at: usize,
    pub line: u32,
}

// What a line that breaks no rule comes to: on to the next, or the end of the listing.
#[derive(Clone, Copy)]
pub enum Lined {
    Moved(Tally, Cursor),
    Ended(Tally, Cursor),
}

// Why a listing is refused: the rule that it breaks, and the line.
#[derive(Clone, Copy)]
pub struct Refusal {
    pub fault: Fault,
    pub line: u32,
}

impl Cursor {
    // The cursor behind the line that ends at e.
    pub fn past(self, e: usize) -> Cursor
        requires { (e < 100000) × (self.line ≤ 100000) }
        ensures { result ≡ record { at = e + 1; line = self.line + 1 } }
    {
        Cursor {
            at: e + 1,
            line: self.line + 1,
        }
    }

    // A rule is broken at this line.
    fn refusal(self, fault: Fault) -> Refusal
        ensures { result ≡ record { fault = fault; line = self.line } }
    {
        Refusal {
            fault,
            line: self.line,
        }
    }
}

// A line, cut, behind whose field a byte 10 stands.
pub fn line_named(s: &[u8], w: &mut [u32], t: Tally, c: Cursor, cut: Cut) -> Result<Lined, Fault>
    requires { Field s.now t w.old cut.field.from cut.field.end × ((cut.field.clean ≡ all is_text (part cut.field.from cut.field.end s.now)) × LineEnd s.now c cut.field.end) }
    ensures { LineOutcome s.now c (line_with (tables_at s.now t w.old) (record_named cut.kind (part cut.field.from cut.field.end s.now)) (lines_of (drop (cut.field.end + 1) s.now))) result w.new }
{
    let Some(kind) = cut.kind else {
        return Err(Fault::BadForm);
    };
    let u = steps::step(s, w, t, kind, cut.field)?;
    let d = c.past(cut.field.end);
    if kind == Kind::End {
        return Ok(Lined::Ended(u, d));
    }
    Ok(Lined::Moved(u, d))
}

// The line at the cursor.
pub fn line(s: &[u8], w: &mut [u32], t: Tally, c: Cursor) -> Result<Lined, Fault>
    requires { Fits s.now t w.old × ((c.at < length s.now) × (c.line ≤ 100000)) }
    ensures { LineOutcome s.now c (line_from (tables_at s.now t w.old) (lines_of (drop c.at s.now))) result w.new }
{
    let cut = lines::cut_at(s, c.at);
    if !cut.whole {
        return Err(Fault::BadForm);
    }
    line_named(s, w, t, c, cut)
}

// The lines from an offset on, of which the first is line 2.
pub fn fill_lines(s: &[u8], w: &mut [u32], at: usize) -> Result<Tally, Refusal>
    requires { Ready s.now at w.old }
    ensures { FillOutcome s.now (fill_from start_tables 2 (lines_of (drop at s.now))) result w.new }
{
    let mut t = Tally::start();
    let mut c = Cursor { at, line: 2 };
    // Kept: `line` finds a line's end and looks at its bytes at once; `split_inclusive` would go over them twice.
    while c.at < s.len() {
        match line(s, w, t, c) {
            Err(fault) => return Err(c.refusal(fault)),
            Ok(lined) => match lined {
                Lined::Ended(u, d) => return closed(s, u, d),
                Lined::Moved(u, d) => {
                    t = u;
                    c = d;
                }
            },
        }
    }
    Err(c.refusal(Fault::NoEnd))
}

// Behind the `end` line.
pub fn closed(s: &[u8], t: Tally, c: Cursor) -> Result<Tally, Refusal>
    ensures { result ≡ closed_at s.now t c }
{
    if c.at < s.len() {
        return Err(c.refusal(Fault::NoEnd));
    }
    Ok(t)
}

// Whether s begins with the first line, its byte 10 too.
pub fn has_first_line(s: &[u8]) -> bool
    ensures { result ≡ starts_with (bytes "constraints\t1\n") s.now }
{
    texts::starts_with(b"constraints\t1\n", s)
}

// The reader: the lent text, and its offset in it.
#[derive(Clone, Copy)]
pub struct Reader<'a> {
    pub text: &'a [u8],
    pub at: usize,
}

impl<'a> Reader<'a> {
    // Past the first line, if the text is not too long and that stands where the reader is.
    pub fn past_first(self) -> Result<Reader<'a>, Refusal>
        requires { self.at ≤ length self.text.now }
        ensures { result ≡ gone_first self.entry self.entry.text.now self.entry.at }
    {
        if most(Counted::Bytes) < self.text.len() {
            return Err(Refusal {
                fault: Fault::LongListing,
                line: 0,
            });
        }
        if !has_first_line(&self.text[self.at..]) {
            return Err(Refusal {
                fault: Fault::BadFirstLine,
                line: 1,
            });
        }
        Ok(Reader {
            text: self.text,
            at: self.at + 14,
        })
    }
}

// The whole listing: where it is accepted, w holds it.
pub fn load(s: &[u8], w: &mut [u32]) -> Result<Tally, Refusal>
    requires { listing_room ≤ length w.old }
    ensures { LoadOutcome s.now result w.new }
{
    let reader = Reader { text: s, at: 0 }.past_first()?;
    fill_lines(reader.text, w, reader.at)
}

// ---- the work table around a call

// What is handed back of a reading, on its side.
pub fn report(side: u32, l: Result<Tally, Refusal>) -> Report
    ensures { result ≡ report_of side (reading_shown l) }
{
    match l {
        Ok(_) => answers::accept(),
        Err(r) => answers::refuse(u32::from(r.fault), side, r.line),
    }
}

// Reads a listing with the first n numbers of w, which are 0 afterwards. The length is a parameter, so that no proof computes with it.
pub fn read_with(s: &[u8], w: &mut [u32], n: usize) -> Report
    requires { (listing_room ≤ n) × (n ≤ length w.old) }
    ensures handed { result ≡ report_of 1 (reading_of s.now) }
    ensures work { w.new ≡ zeroed n w.old }
{
    let loaded = load(s, &mut w[..n]);
    worktable::zero_first(w, n);
    report(1, loaded)
}

// Reads a listing: accepted, or refused with a number, side 1 and a line. Numbers and sides as 01 has them.
#[unsafe(no_mangle)]
pub extern "C" fn budquarry_read(listing: &[u8], work: &mut [u32]) -> Report
    ensures { ReadOutcome listing.now work.old result work.new }
{
    if worktable::is_short(work) {
        return answers::refuse(answers::SHORT_TABLE, 0, 0);
    }
    read_with(listing, work, worktable::WORK)
}
