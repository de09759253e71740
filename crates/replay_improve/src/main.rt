// Replays vectors of improving: standard input has calls of `lanovishel_improve` with what the original
// answers, and the program says how many answers and improved lists are the same, bit for bit.
#![tactic(auto)]

ghost use Rattle.std.specs.Prelude.{◌+◌, ◌*◌, ◌≤◌, length};
ghost use Rattle.vectors.specs.Words.{count_of};

use std::{array, io};
use vectors::{Element, Program, Replayed, Tally};

// Calls of `lanovishel_improve`.
struct Improve;

impl Program for Improve {
    // There is room for more terms than a field sheet may have.
    fn run(
        text: &[u8],
        k: usize,
        points: &mut [f64],
        corners: &mut [u32],
        labels: &mut [u8],
        work: &mut [u32],
    ) -> Option<Replayed> {
        let mut coefficients = [0.0f64; 72];
        let mut powers = [0u32; 216];
        let c = vectors::read(text, k, &mut coefficients)?;
        let p = vectors::read(text, c.next, &mut powers)?;
        let next = p.next + 26 + points.len() * 2 + corners.len() + labels.len();
        if next > vectors::count(text) {
            return None;
        }
        let agreed = agrees(
            text,
            p.next,
            points,
            corners,
            labels,
            work,
            &coefficients[..c.len],
            &powers[..p.len],
        );
        Some(Replayed { next, agreed })
    }
}

// Whether a call on words that were lent, with the levels, the box and the rounds that stand from word
// k on, ends as the words behind these say.
fn agrees(
    text: &[u8],
    k: usize,
    points: &mut [f64],
    corners: &mut [u32],
    labels: &mut [u8],
    work: &mut [u32],
    coefficients: &[f64],
    powers: &[u32],
) -> bool
    requires { (k + 26 + length points.old * 2 + length corners.old + length labels.old ≤ count_of text.now) × (length points.old ≤ 96) × (length corners.old ≤ 96) }
{
    let levels = numbers_at::<2>(text, k);
    let bounds = numbers_at::<6>(text, k + 4);
    let rounds = vectors::word(text, k + 16);
    let mut answer = [7u32, 8u32, 9u32];
    let mut place = [10u32, 11u32];
    let number = lanovishel::lanovishel_improve(
        points,
        corners,
        labels,
        work,
        coefficients,
        powers,
        &levels,
        &bounds,
        rounds,
        &mut answer,
        &mut place,
    );
    vectors::ends_so(text, k + 17, number, &place, points, corners, work)
        && left_so(text, k + 20, points, corners, labels, &answer)
}

// The numbers that stand from word k on.
fn numbers_at<const N: usize>(text: &[u8], k: usize) -> [f64; N]
    requires { k + N * 2 ≤ count_of text.now }
{
    array::from_fn(|i| f64::at(text, k + i * 2))
}

// Whether the lists after a call and its answer (points left, triangles left, flips) are those that stand
// from word k on.
fn left_so(
    text: &[u8],
    k: usize,
    points: &[f64],
    corners: &[u32],
    labels: &[u8],
    answer: &[u32; 3],
) -> bool
    requires { k + 6 + length points.now * 2 + length corners.now + length labels.now ≤ count_of text.now }
{
    let a = k + 1 + points.len() * 2;
    let b = a + 1 + corners.len();
    let c = b + 1 + labels.len();
    vectors::is_at(text, k, points)
        && vectors::is_at(text, a, corners)
        && vectors::is_at(text, b, labels)
        && *answer == array::from_fn(|i| vectors::word(text, c + i))
}

fn main(rt: HostRuntime) -> io::Result<()> {
    let mut text = [0u8; 262144];
    let n = input::read_full(&mut rt.stdin(), &mut text)?;
    let Tally { vectors, same } = vectors::replay::<Improve>(&text[..n]);
    println!(rt; "{vectors} vectors, {same} as they must be")
}
