// The line that is written for a case: its name, the numbers that the call handed back, and a sign where the work table is not as it has to be.
use std::io;
use std::io::Print;

// Writes a space and n.
pub fn show_number(rt: &impl Print, n: u32) -> io::Result<()> {
    print!(rt; " {n}")
}

// Writes the name, and what every call hands back.
pub fn show_start(
    rt: &impl Print,
    name: &str,
    number: u32,
    side: u32,
    line: u32,
) -> io::Result<()> {
    rt.print(name)?;
    show_number(rt, number)?;
    show_number(rt, side)?;
    show_number(rt, line)
}

// Ends the line, behind the sign where there has to be one.
pub fn show_end(rt: &impl Print, is_work_right: bool) -> io::Result<()> {
    if !is_work_right {
        rt.print(" WORK")?;
    }
    rt.println("")
}
