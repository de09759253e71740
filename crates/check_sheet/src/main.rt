// The printed check: reads a sheet from standard input, and prints what `printing` makes of it.
#![tactic(auto)]

use std::io;
use std::io::Write;

fn main(rt: HostRuntime) -> io::Result<()> {
    // One byte more than the longest sheet has.
    let mut text = [0u8; 12982];
    let n = input::read_full(&mut rt.stdin(), &mut text)?;
    let mut printed = [0u8; 64];
    let length = printing::print(&text[..n], &mut printed);
    rt.stdout().write_all(&printed[..length])
}
