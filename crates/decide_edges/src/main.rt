// Takes each file case000, case001, .. of the folder that it is run in as a stored request, and writes a line for what deciding answers.
#![tactic(auto)]

use deciding::decider;
use edges::{cases, lines, work};
use std::fs::File;
use std::io::Print;
use std::rt::Files;
use std::{io, str};

mod parts; // where the parts of a stored request stand

// Decides a request with a work table of 5,000 numbers. Then the first 4,096 numbers have to be 0, and all others as before.
fn try_request(
    rt: &impl Print,
    name: &str,
    listing: &[u8],
    path: &[u8],
    method: &[u8],
    login: u32,
    roles: &[u8],
) -> io::Result<()> {
    // Kept: fixed memory, no heap.
    let mut w = [0u32; 5000];
    work::fill(&mut w);
    let d = decider::budquarry_decide(listing, path, method, login, roles, &mut w);
    let r = d.report;
    lines::show_start(rt, name, r.number, r.side, r.line)?;
    lines::show_number(rt, d.answer)?;
    lines::show_end(rt, work::is_cleared(&w, 4096))
}

// Decides the request that is stored in s.
fn try_stored(rt: &impl Print, name: &str, s: &[u8]) -> io::Result<()> {
    let listing = parts::end_of(0, 12, s.len());
    let path = parts::end_of(listing, parts::two_at(s, 0), s.len());
    let method = parts::end_of(path, parts::two_at(s, 2), s.len());
    let roles = parts::end_of(method, parts::two_at(s, 4), s.len());
    let end = parts::end_of(roles, parts::two_at(s, 10), s.len());
    let login = parts::four_at(s, 6);
    try_request(
        rt,
        name,
        &s[listing..path],
        &s[path..method],
        &s[method..roles],
        login,
        &s[roles..end],
    )
}

// The case k. Answers whether its file could be opened: where not, nothing is written.
// A stored request has at most 12 + 24,577 + 2,000 + 100 + 4,000 bytes.
fn try_case(rt: &(impl Files + Print), k: usize) -> io::Result<bool> {
    // Kept: fixed memory, no heap.
    let mut buf = [0u8; 30689];
    let name = cases::case_name(k);
    let name = str::from_utf8(&name).unwrap();
    let Ok(file) = File::open(rt, name) else {
        return Ok(false);
    };
    let n = cases::read_and_close(file, &mut buf);
    try_stored(rt, name, &buf[..n])?;
    Ok(true)
}

// The cases up to the first whose file can't be opened, and at most 1,000.
fn main(rt: HostRuntime) -> io::Result<()> {
    for k in 0..1000 {
        if !try_case(&rt, k)? {
            break;
        }
    }
    Ok(())
}
