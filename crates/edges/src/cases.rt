// The files of the stored cases.
ghost use Rattle.std.specs.Prelude.{◌≡◌, ◌≤◌, length, IsUtf8};
ghost use Rattle.edges.specs.Cases.{last_digit, case_name};

use std::io::Read;

// The last decimal digit of n.
fn digit(n: usize) -> u8
    ensures { result ≡ last_digit n }
{
    b'0' + (n % 10) as u8
}

// The name of the file of case k.
pub fn case_name(k: usize) -> [u8; 7]
    ensures bytes { result ≡ case_name k }
    ensures text { IsUtf8 result }
{
    [
        b'c',
        b'a',
        b's',
        b'e',
        digit(k / 10 / 10),
        digit(k / 10),
        digit(k),
    ]
}

// Reads until buf is full or the file ends, and closes the file. A read that fails counts as the file's end.
pub fn read_and_close<R: Read + Drop>(mut file: R, buf: &mut [u8]) -> usize
    ensures { result ≤ length buf.new }
{
    let mut done = 0;
    // Kept: a turn takes as many bytes as the read gave; no `for` counts them.
    while done < buf.len() {
        let n = file.read(&mut buf[done..]).unwrap_or(0);
        if n == 0 {
            break;
        }
        done += n;
    }
    done
}
