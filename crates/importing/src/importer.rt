// The whole call: the file read into the work table, and the listing written from there.
ghost use Rattle.std.specs.Prelude.{◌≡◌, ◌≤◌, length};
ghost use Rattle.worktable.specs.Work.{work_size, zeroed};
ghost use Rattle.portals.specs.Listings.{written};
ghost use Rattle.portals.specs.Readings.{file_of};
ghost use Rattle.portals.specs.Outcomes.{most_xml, made_of, read_by, FromOutcome};
ghost use Rattle.ledger.specs.Places.{ledger_at, records_at};
ghost use Rattle.forming.specs.Formed.{Formed};
ghost use Rattle.importing.specs.Handed.{handed_by};
ghost use Rattle.importing.specs.Calls.{FileRead, Formable, made_in, formed_of, formed_in, read_in};

use crate::answers;
use crate::answers::Import;
use elements::files;
use forming::arranging;
use ledger::adding;
use limits;
use listings::answers::{LONG_LISTING, SHORT_TABLE};
use markup::answers::Fault;
use markup::lines;
use worktable;

// The listing for the records, written where it is not too long and the buffer is long enough.
pub fn make(s: &[u8], records: &[u32], listing: &mut [u8]) -> Import
    requires { Formed s.now (length records.now) records.now }
    ensures handed { handed_by result ≡ made_of (written (records_at s.now (length records.now) records.now)) (length listing.old) }
    ensures buffer { listing.new ≡ made_in (written (records_at s.now (length records.now) records.now)) listing.old }
{
    let m = arranging::put_listing(s, records, &mut listing[..0]);
    if limits::BYTES < m {
        return answers::refuse(LONG_LISTING, 1, 0);
    }
    if listing.len() < m {
        return answers::tell(answers::SMALL_LISTING, m);
    }
    arranging::put_listing(s, records, listing);
    answers::tell(0, m)
}

// So many records have room in the work table; more make a listing that is too long.
const MOST: usize = 3600;

// The listing for the records that the table holds.
pub fn form(s: &[u8], w: &[u32], listing: &mut [u8]) -> Import
    requires { Formable s.now w.now }
    ensures handed { handed_by result ≡ formed_of (ledger_at s.now w.now) (length listing.old) }
    ensures buffer { listing.new ≡ formed_in (ledger_at s.now w.now) listing.old }
{
    let n = adding::size(w);
    if MOST < n {
        return answers::refuse(LONG_LISTING, 1, 0);
    }
    make(s, &w[..n], listing)
}

// What comes of a file that is read: the fault and its line, or the listing.
pub fn answer(s: &[u8], read: Result<usize, Fault>, w: &[u32], listing: &mut [u8]) -> Import
    requires { (length s.now ≤ most_xml) × FileRead s.now read w.now }
    ensures handed { handed_by result ≡ read_by s.now (file_of s.now) (length listing.old) }
    ensures buffer { listing.new ≡ read_in s.now listing.old }
{
    match read {
        Ok(_) => form(s, w, listing),
        Err(f) => answers::refuse(u32::from(f.cause), 1, lines::line_of(s, f.at)),
    }
}

// The same with the first n numbers of w, which are 0 before and afterwards.
pub fn import_with(s: &[u8], listing: &mut [u8], w: &mut [u32], n: usize) -> Import
    requires { (length s.now ≤ most_xml) × ((n ≡ work_size) × (n ≤ length w.old)) }
    ensures handed { handed_by result ≡ read_by s.now (file_of s.now) (length listing.old) }
    ensures buffer { listing.new ≡ read_in s.now listing.old }
    ensures work { w.new ≡ zeroed n w.old }
{
    worktable::zero_first(w, n);
    let read = files::file(s, &mut w[..n]);
    let r = answer(s, read, &w[..n], listing);
    worktable::zero_first(w, n);
    r
}

// The most bytes of a file.
pub const FILE: usize = 65536;

// Reads a web.xml and writes the listing for it, into the first `length` bytes of the listing's buffer.
#[unsafe(no_mangle)]
pub extern "C" fn budquarry_from_web_xml(xml: &[u8], listing: &mut [u8], work: &mut [u32]) -> Import
    ensures { FromOutcome xml.now listing.old work.old (handed_by result) listing.new work.new }
{
    if worktable::is_short(work) {
        return answers::refuse(SHORT_TABLE, 0, 0);
    }
    if FILE < xml.len() {
        worktable::zero_first(work, worktable::WORK);
        return answers::refuse(answers::LONG_FILE, 1, 0);
    }
    import_with(xml, listing, work, worktable::WORK)
}
