// Files that a program is run on.
#![tactic(auto)]

ghost use Rattle.std.specs.Prelude.{◌≡◌, ◌≤◌, length};
ghost use Rattle.io.specs.Counts.{IsPrefixLen};

use std::fs::{self, Files};
use std::io::Read;
use std::{io, str};

// Reads until the buffer is full, the input ends or a read fails, and answers how many bytes of the buffer it took.
fn read_full<R: Read>(from: &mut R, buf: &mut [u8]) -> usize
    ensures { IsPrefixLen result buf.new }
{
    let mut done = 0;
    while done < buf.len() {
        match from.read(&mut buf[done..]) {
            Ok(0) => break,
            Ok(n) => done += n,
            Err(_) => break,
        }
    }
    done
}

// A file by the bytes of its name.
fn open<R: Files>(rt: &R, path: &[u8]) -> io::Result<R::File> {
    match str::from_utf8(path) {
        Ok(text) => fs::open(rt, text),
        Err(_) => Err(io::Error::from(io::ErrorKind::InvalidInput)),
    }
}

// Reads a file, as far as the buffer goes, and answers how many bytes of the buffer it took. Promised is that the count lies
// within the buffer, and nothing of which bytes those are. A file that can't be opened is said on standard error, and the
// count is then 0, which isn't promised either.
pub fn read_file<R: Files + Eprint>(rt: &R, path: &[u8], buf: &mut [u8]) -> usize
    ensures { IsPrefixLen result buf.new }
{
    let mut file = match open(rt, path) {
        Ok(file) => file,
        Err(error) => {
            let name = path.escape_ascii();
            let _said = rt.eprintln(format_args!("{name}: {error}"));
            return 0;
        }
    };
    read_full(&mut file, buf)
}
