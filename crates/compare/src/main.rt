// Compares the listings old.txt and new.txt of the folder that it is run in, and prints the verdict's lines or the refusal's.
#![tactic(auto)]

use comparing::comparer::ANSWER;
use limits::BYTES;
use std::io;
use std::io::Print;
use worktable::WORK;

mod files; // a file's bytes
mod printing; // the text that is printed

fn main(rt: HostRuntime) -> io::Result<()> {
    // Kept: fixed memory, no heap: one byte more than a listing may have, so that a longer file shows.
    let mut old = [0u8; BYTES + 1];
    let mut new = [0u8; BYTES + 1];
    let mut text = [0u8; ANSWER];
    let mut work = [0u32; WORK];
    let n = files::load(&rt, "old.txt", &mut old);
    let m = files::load(&rt, "new.txt", &mut new);
    let k = printing::compare_into(&old[..n], &new[..m], &mut text, &mut work);
    rt.write_all(&text[..k])
}
