// The C library: the calls of the three layers, and the one that reads a web.xml, in one archive. Each is its layer's own, with its layer's statement.
#![tactic(auto)]

ghost use Rattle.reading.specs.Outcomes.{ReadOutcome};
ghost use Rattle.deciding.specs.Outcomes.{asked, DecideOutcome};
ghost use Rattle.comparisons.specs.Outcomes.{CompareOutcome};
ghost use Rattle.portals.specs.Outcomes.{FromOutcome};
ghost use Rattle.importing.specs.Handed.{handed_by};

use comparing::comparer;
use comparisons::answers::Comparison;
use deciding::answers::Decision;
use deciding::decider;
use importing::answers::Import;
use importing::importer;
use listings::answers::Report;
use reading::reader;

#[unsafe(no_mangle)]
pub extern "C" fn budquarry_read(listing: &[u8], work: &mut [u32]) -> Report
    ensures { ReadOutcome listing.now work.old result work.new }
{
    reader::budquarry_read(listing, work)
}

#[unsafe(no_mangle)]
pub extern "C" fn budquarry_decide(
    listing: &[u8],
    path: &[u8],
    method: &[u8],
    login: u32,
    roles: &[u8],
    work: &mut [u32],
) -> Decision
    ensures { DecideOutcome (asked listing.now path.now method.now login roles.now) work.old result work.new }
{
    decider::budquarry_decide(listing, path, method, login, roles, work)
}

#[unsafe(no_mangle)]
pub extern "C" fn budquarry_compare<'a>(
    old: &'a [u8],
    new: &'a [u8],
    answer: &mut [u8],
    work: &mut [u32],
) -> Comparison
    ensures { CompareOutcome old.now new.now answer.old work.old result answer.new work.new }
{
    comparer::budquarry_compare(old, new, answer, work)
}

#[unsafe(no_mangle)]
pub extern "C" fn budquarry_from_web_xml(xml: &[u8], listing: &mut [u8], work: &mut [u32]) -> Import
    ensures { FromOutcome xml.now listing.old work.old (handed_by result) listing.new work.new }
{
    importer::budquarry_from_web_xml(xml, listing, work)
}
