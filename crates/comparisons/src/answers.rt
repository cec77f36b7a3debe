// What comparing hands back.
ghost use Rattle.std.specs.Prelude.{◌≡◌, ◌≤◌};
ghost use Rattle.listings.specs.Refusals.{report};

use listings::answers;
use listings::answers::Report;

// To C: length is that of the answer, and 0 beside a refusal.
#[repr(C)]
#[derive(Clone, Copy)]
pub struct Comparison {
    pub report: Report,
    pub length: u32,
}

// A refusal, whose length is 0.
pub fn refuse(number: u32, side: u32, line: u32) -> Comparison
    ensures { result ≡ record { report = report number side line; length = 0 } }
{
    Comparison {
        report: answers::refuse(number, side, line),
        length: 0,
    }
}

// An answer of n bytes.
pub fn tell(n: usize) -> Comparison
    requires { n ≤ 1024 }
    ensures { result ≡ record { report = report 0 0 0; length = n } }
{
    Comparison {
        report: answers::accept(),
        length: n as u32,
    }
}
