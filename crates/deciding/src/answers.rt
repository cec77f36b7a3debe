// What deciding hands back.
use listings::answers::Report;

// To C: the answer is 0 where something is refused.
#[repr(C)]
#[derive(Clone, Copy)]
pub struct Decision {
    pub report: Report,
    pub answer: u32,
}
