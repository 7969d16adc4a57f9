// Reads an objective from standard input and writes its reduction to standard output.
#![tactic(auto)]

use std::io;
use std::io::Write;

// One byte more than a text may have.
fn main(rt: HostRuntime) -> io::Result<()> {
    let mut text = [0u8; 32769];
    let n = input::read_full(&mut rt.stdin(), &mut text)?;
    let mut out = reply::buffer();
    let m = reply::reply(&text[..n], &mut out);
    rt.stdout().write_all(&out[..m])
}
