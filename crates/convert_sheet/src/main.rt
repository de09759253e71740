// Converts a sheet: reads it from standard input, and writes it in the edition that the argument names, or
// prints the number of the refusal.
#![tactic(auto)]

use std::io;
use std::io::Write;
use std::rt::Env;

// The number of the edition that the argument names; 0, which no edition has, for any other argument and for
// none. (No Option: `convert` takes the number that C would hand it, and refuses 0.)
fn edition(rt: &impl Env) -> u32 {
    let mut word = [0u8; 2];
    let Ok(1) = rt.arg(1, &mut word) else {
        return 0;
    };
    match word[0] {
        b'1' => 1,
        b'2' => 2,
        _ => 0,
    }
}

// The sheet in the edition, or the number and a line feed. No sheet is longer than the list.
fn convert(rt: &impl Print, text: &[u8], edition: u32) -> io::Result<()> {
    let mut written = [0u8; 12981];
    match converting::convert(text, edition, &mut written) {
        Ok(n) => io::writer(rt).write_all(&written[..n]),
        Err(why) => println!(rt; "{}", why.number()),
    }
}

fn main(rt: HostRuntime) -> io::Result<()> {
    // One byte more than the longest sheet has.
    let mut text = [0u8; 12982];
    let n = input::read_full(&mut rt.stdin(), &mut text)?;
    convert(&rt, &text[..n], edition(&rt))
}
