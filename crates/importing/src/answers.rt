// What is handed back, and 02's numbers of the refusals that are about no listing.
ghost use Rattle.std.specs.Prelude.{◌≡◌};
ghost use Rattle.portals.specs.Outcomes.{handed};
ghost use Rattle.importing.specs.Handed.{handed_by};

use listings::answers;
use listings::answers::Report;

pub const SMALL_LISTING: u32 = 15;

pub const LONG_FILE: u32 = 16;

// To C: length is that of the listing, beside refusal 15 the length that is needed, and 0 beside the others.
#[repr(C)]
#[derive(Clone, Copy)]
pub struct Import {
    pub report: Report,
    pub length: usize,
}

// Kept: `refuse` and `tell` have the side and line, or the length, at 0; one function of four numbers would be called with noughts.
// A refusal, whose length is 0.
pub fn refuse(number: u32, side: u32, line: u32) -> Import
    ensures { handed_by result ≡ handed number side line 0 }
{
    Import {
        report: answers::refuse(number, side, line),
        length: 0,
    }
}

// A listing of n bytes: it is written (number 0), or the buffer is too small.
pub fn tell(number: u32, n: usize) -> Import
    ensures { handed_by result ≡ handed number 0 0 n }
{
    Import {
        report: answers::refuse(number, 0, 0),
        length: n,
    }
}
