// Replays vectors of the original: standard input has calls of `lanovishel_check` with what the
// original answers, and the program says how many answers are the same, bit for bit.
#![tactic(auto)]

ghost use Rattle.std.specs.Prelude.{◌+◌, ◌≤◌, length};
ghost use Rattle.vectors.specs.Words.{count_of};

use std::io;
use vectors::{Element, Program, Replayed, Tally};

// Calls of `lanovishel_check`.
struct Check;

impl Program for Check {
    fn run(
        text: &[u8],
        k: usize,
        points: &mut [f64],
        corners: &mut [u32],
        labels: &mut [u8],
        work: &mut [u32],
    ) -> Option<Replayed> {
        let next = k + 7;
        if next > vectors::count(text) {
            return None;
        }
        let agreed = agrees(text, k, points, corners, labels, work);
        Some(Replayed { next, agreed })
    }
}

// Whether a call on words that were lent is answered as the words from k on say: number, place, quality,
// volume.
fn agrees(
    text: &[u8],
    k: usize,
    points: &[f64],
    corners: &[u32],
    labels: &[u8],
    work: &mut [u32],
) -> bool
    requires { (k + 7 ≤ count_of text.now) × (length points.now ≤ 96) × (length corners.now ≤ 96) }
{
    let mut numbers = [1.5f64, -1.5f64];
    let mut place = [10u32, 11u32];
    let number = lanovishel::lanovishel_check(
        points,
        corners,
        labels,
        work,
        &mut numbers,
        &mut place,
    );
    vectors::ends_so(text, k, number, &place, points, corners, work)
        && numbers[0].same(f64::at(text, k + 3))
        && numbers[1].same(f64::at(text, k + 5))
}

fn main(rt: HostRuntime) -> io::Result<()> {
    let mut text = [0u8; 65536];
    let n = input::read_full(&mut rt.stdin(), &mut text)?;
    let Tally { vectors, same } = vectors::replay::<Check>(&text[..n]);
    println!(rt; "{vectors} vectors, {same} as the original answers")
}
