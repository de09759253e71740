// Counts what decides a root: the guess, the number above it, the number below it, or the digits. The
// first row is of 10,000,000 numbers, the second of the f64 just below 1, which only the digits decide.
#![tactic(auto)]

ghost use Rattle.std.specs.Prelude.{◌-◌, ◌^◌, ◌≤◌, ◌<◌};

use float::guess::{guess, nearest_of_three};
use std::io;

// The number after x in Marsaglia's xorshift generator with the shifts 13, 7 and 17.
fn after(x: u64) -> u64 {
    let y = x ^ (x << 13);
    let z = y ^ (y >> 7);
    z ^ (z << 17)
}

// What is rooted for a normal f64 with these bits: its 53 digits, and a zero more where the exponent
// is even.
fn rooted(bits: u64) -> u64
    ensures { (2 ^ 52 ≤ result) × (result ≤ 2 ^ 54 - 2) }
{
    let m = bits % 0x10_0000_0000_0000 + 0x10_0000_0000_0000;
    if bits / 0x10_0000_0000_0000 % 2 == 0 {
        return m * 2;
    }
    m
}

#[derive(Clone, Copy, Debug, PartialEq, Eq)]
enum Way {
    Guess,
    Above,
    Below,
    Digits,
}

// What decides: the guess, the number above it, the number below it, or the digits.
fn decider(wide: u64) -> Way
    requires { (2 ^ 52 ≤ wide) × (wide ≤ 2 ^ 54 - 2) }
{
    let g = guess(wide);
    match nearest_of_three(g, wide) {
        None => Way::Digits,
        Some(r) if r == g => Way::Guess,
        Some(r) if r > g => Way::Above,
        Some(_) => Way::Below,
    }
}

// How many of the numbers from x on are decided so.
fn decided(mut x: u64, numbers: u64, by: Way) -> u64 {
    let mut count = 0;
    for _ in 0..numbers {
        if decider(rooted(x)) == by {
            count += 1;
        }
        x = after(x);
    }
    count
}

// Each count is printed as soon as it is known: a row takes a while.
fn print_row(rt: &impl Print, x: u64, numbers: u64) -> io::Result<()> {
    let guess = decided(x, numbers, Way::Guess);
    print!(rt; "{guess} ")?;
    let above = decided(x, numbers, Way::Above);
    print!(rt; "{above} ")?;
    let below = decided(x, numbers, Way::Below);
    print!(rt; "{below} ")?;
    let digits = decided(x, numbers, Way::Digits);
    println!(rt; "{digits}")
}

fn main(rt: HostRuntime) -> io::Result<()> {
    println!(rt; "guess above below digits")?;
    print_row(&rt, 1, 10_000_000)?;
    print_row(&rt, 0x3fef_ffff_ffff_ffff, 1)
}
