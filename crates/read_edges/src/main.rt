// Reads each file case000, case001, .. of the folder that it is run in as a listing, and writes a line for what reading answers.
#![tactic(auto)]

ghost use Rattle.std.specs.Prelude.{◌≤◌, length};

use edges::{cases, lines, work};
use reading::reader;
use std::fs::File;
use std::io::Print;
use std::rt::Files;
use std::{io, str};

// Reads the listing with the first `lent` numbers of w. Then the first `zero` of them have to be 0, and all others as before.
fn try_listing(
    rt: &impl Print,
    name: &str,
    listing: &[u8],
    w: &mut [u32],
    lent: usize,
    zero: usize,
) -> io::Result<()>
    requires { (lent ≤ length w.old) × (zero ≤ length w.old) × (length w.old ≤ 5000) }
{
    work::fill(w);
    let r = reader::budquarry_read(listing, &mut w[..lent]);
    lines::show_start(rt, name, r.number, r.side, r.line)?;
    lines::show_end(rt, work::is_cleared(w, zero))
}

// Tries the file at path. Answers whether it could be opened: where not, nothing is written.
// A listing has at most 24,576 bytes: one more is read, so that a longer file is seen to be longer.
fn try_file(
    rt: &(impl Files + Print),
    name: &str,
    path: &str,
    lent: usize,
    zero: usize,
) -> io::Result<bool>
    requires { (lent ≤ 5000) × (zero ≤ 5000) }
{
    // Kept: fixed memory, no heap.
    let mut buf = [0u8; 24577];
    let mut w = [0u32; 5000];
    let Ok(file) = File::open(rt, path) else {
        return Ok(false);
    };
    let n = cases::read_and_close(file, &mut buf);
    try_listing(rt, name, &buf[..n], &mut w, lent, zero)?;
    Ok(true)
}

// The case k, with the whole work table.
fn try_case(rt: &(impl Files + Print), k: usize) -> io::Result<bool> {
    let name = cases::case_name(k);
    let name = str::from_utf8(&name).unwrap();
    try_file(rt, name, name, 5000, 4096)
}

// The cases up to the first whose file can't be opened, and at most 1,000.
fn try_cases(rt: &(impl Files + Print)) -> io::Result<()> {
    for k in 0..1000 {
        if !try_case(rt, k)? {
            break;
        }
    }
    Ok(())
}

// Then the first case with a work table that is one number too short: no number may change.
fn main(rt: HostRuntime) -> io::Result<()> {
    try_cases(&rt)?;
    try_file(&rt, "short", "case000", 4095, 0)?;
    Ok(())
}
