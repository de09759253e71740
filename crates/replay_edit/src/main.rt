// Replays vectors of editing: standard input has calls of `lanovishel_edit` with what a model of editing
// answers, and the program says how many answers and edited lists are the same.
#![tactic(auto)]

ghost use Rattle.std.specs.Prelude.{◌+◌, ◌≤◌, length};
ghost use Rattle.vectors.specs.Words.{count_of};

use std::io;
use vectors::{Program, Replayed, Tally};

// Calls of `lanovishel_edit`.
struct Edit;

impl Program for Edit {
    fn run(
        text: &[u8],
        k: usize,
        points: &mut [f64],
        corners: &mut [u32],
        labels: &mut [u8],
        work: &mut [u32],
    ) -> Option<Replayed> {
        let mut entries = [0u32; 128];
        let mut verdicts = [0u32; 64];
        let mut journal = [0u32; 512];
        vectors::lend(&mut verdicts);
        vectors::lend(&mut journal);
        let e = vectors::read(text, k, &mut entries)?;
        let v = vectors::word(text, e.next) as usize;
        if v > 64 {
            return None;
        }
        let j = vectors::word(text, e.next + 1) as usize;
        if j > 512 {
            return None;
        }
        let next = e.next + 11 + corners.len() + labels.len() + v + j;
        if next > vectors::count(text) {
            return None;
        }
        let agreed = agrees(
            text,
            e.next + 2,
            points,
            corners,
            labels,
            work,
            &entries[..e.len],
            &mut verdicts[..v],
            &mut journal[..j],
        );
        Some(Replayed { next, agreed })
    }
}

// Whether a call on words that were lent ends as the words from k on say.
fn agrees(
    text: &[u8],
    k: usize,
    points: &[f64],
    corners: &mut [u32],
    labels: &mut [u8],
    work: &mut [u32],
    entries: &[u32],
    verdicts: &mut [u32],
    journal: &mut [u32],
) -> bool
    requires { (k + 9 + length corners.old + length labels.old + length verdicts.old + length journal.old ≤ count_of text.now) × (length points.now ≤ 96) × (length corners.old ≤ 96) }
{
    let mut answer = [7u64, 8u64];
    let mut place = [10u32, 11u32];
    let number = lanovishel::lanovishel_edit(
        points,
        corners,
        labels,
        work,
        entries,
        verdicts,
        journal,
        &mut answer,
        &mut place,
    );
    vectors::ends_so(text, k, number, &place, points, corners, work)
        && left_so(text, k + 3, corners, labels, verdicts, journal, &answer)
}

// Whether the lists after a call and its answer are those that stand from word k on.
fn left_so(
    text: &[u8],
    k: usize,
    corners: &[u32],
    labels: &[u8],
    verdicts: &[u32],
    journal: &[u32],
    answer: &[u64; 2],
) -> bool
    requires { k + 6 + length corners.now + length labels.now + length verdicts.now + length journal.now ≤ count_of text.now }
{
    let a = k + 1 + corners.len();
    let b = a + 1 + labels.len();
    let c = b + 1 + verdicts.len();
    let d = c + 1 + journal.len();
    vectors::is_at(text, k, corners)
        && vectors::is_at(text, a, labels)
        && vectors::is_at(text, b, verdicts)
        && vectors::is_at(text, c, journal)
        && answer[0] == u64::from(vectors::word(text, d))
        && answer[1] == u64::from(vectors::word(text, d + 1))
}

fn main(rt: HostRuntime) -> io::Result<()> {
    let mut text = [0u8; 262144];
    let n = input::read_full(&mut rt.stdin(), &mut text)?;
    let Tally { vectors, same } = vectors::replay::<Edit>(&text[..n]);
    println!(rt; "{vectors} vectors, {same} as they must be")
}
