// Runs stored inputs through the report: for each argument, the name of a file, it writes the name and what the report says
// of the file's bytes; then the same for the file every_byte with each byte value as the first and as the second byte of its name.
#![tactic(auto)]

ghost use Rattle.std.specs.Prelude.{◌<◌};

use std::env::{Env, FillError};
use std::io;
use std::rt::Runtime;

// What the report says of an input.
fn write_report(rt: &impl Print, input: &[u8]) -> io::Result<()> {
    let mut out = [0; 4096];
    let size = report::report(input, &mut out);
    let count = report::held(size, &out);
    rt.write_all(&out[..count])
}

// One stored input. The buffer has one byte more than a text may have.
fn run_file(rt: &impl Runtime, path: &[u8]) -> io::Result<()> {
    let mut input = [0; 65536];
    let got = files::read_file(rt, path, &mut input);
    rt.write_all(path)?;
    rt.write_all(b"\n")?;
    write_report(rt, &input[..got])
}

// An argument; false past the last one.
fn run_argument(rt: &impl Runtime, i: usize) -> io::Result<bool> {
    let mut path = [0; 4096];
    match rt.arg(i, &mut path) {
        Ok(length) => run_file(rt, &path[..length])?,
        Err(FillError::TooLong) => run_file(rt, b"")?,
        Err(FillError::NotPresent) => return Ok(false),
    }
    Ok(true)
}

// Every argument.
fn run_arguments(rt: &impl Runtime) -> io::Result<()> {
    for i in 1..usize::MAX {
        if !run_argument(rt, i)? {
            break;
        }
    }
    Ok(())
}

// The file every_byte with the byte at a place replaced: places 17 and 18 are the first and the second byte of the name that it
// declares. The file is read before anything is written, so what is said of one that cannot be opened stands in front.
fn run_byte(rt: &impl Runtime, words: &[u8], place: usize, value: u8) -> io::Result<()>
    requires { place < 4096 }
{
    let mut input = [0; 4096];
    let got = files::read_file(rt, b"every_byte", &mut input);
    input[place] = value;
    if !words.is_empty() {
        rt.write_all(words)?;
    }
    println!(rt; "byte {value}")?;
    write_report(rt, &input[..got])
}

fn main(rt: HostRuntime) -> io::Result<()> {
    run_arguments(&rt)?;
    for value in 0..=u8::MAX {
        run_byte(&rt, b"first ", 17, value)?;
        run_byte(&rt, b"", 18, value)?;
    }
    Ok(())
}
