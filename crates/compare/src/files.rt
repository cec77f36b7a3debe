// A file's bytes. What stands in a file no contract says. That no more is taken than there is room for is proved, and of a reader whose bytes
// are known, which of them are.
ghost use Rattle.std.specs.Prelude.{◌≡◌, ◌<◌, ◌≤◌, length, take, IfSome};
ghost use Rattle.limits.specs.Limits.{most_bytes};

use std::fs::File;
use std::io::Read;
use std::rt::Files;

// Reads on until the file ends or buf is full, however few bytes come at a time. A file of which a read fails counts as no bytes,
// as one that can't be opened does: its first bytes could be another listing, and a refusal is never a verdict.
fn read_whole<R: Read>(file: &mut R, buf: &mut [u8]) -> usize
    ensures fits { result ≤ length buf.new }
    ensures bytes { 0 < result → IfSome (R.remaining file.old) (λ left. take result buf.new ≡ take (length buf.new) left) }
{
    let mut done = 0;
    // Kept: a turn takes as many bytes as the read gave; no `for` counts them.
    while done < buf.len() {
        match file.read(&mut buf[done..]) {
            Ok(0) => return done,
            Ok(n) => done += n,
            Err(_) => return 0,
        }
    }
    done
}

// The bytes of the file of a name. A file that can't be opened counts as no bytes. A listing has at most 24,576 bytes, and buf has room for
// one more, so that a longer file is seen to be longer and is refused, not cut to fit.
pub fn load(files: &impl Files, name: &str, buf: &mut [u8]) -> usize
    requires { most_bytes < length buf.old }
    ensures { result ≤ length buf.new }
{
    match File::open(files, name) {
        Ok(mut file) => read_whole(&mut file, buf),
        Err(_) => 0,
    }
}
