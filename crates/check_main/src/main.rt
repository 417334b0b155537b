// The program check: reads a description and its history from standard input, and writes what the report says of them.
#![tactic(auto)]

use std::io;
use std::io::Read;

// Of the input one byte more than a text may have is read, so that a longer text is refused. The output buffer holds every
// output whole.
fn main(rt: HostRuntime) -> io::Result<()> {
    let mut input = Vec::new(rt.alloc());
    rt.reader().take(65536).read_to_end(&mut input)?;
    let mut out = [0; 4096];
    let size = report::report(&input, &mut out);
    let count = report::held(size, &out);
    rt.write_all(&out[..count])
}
