// Improving: rounds, each of a collapse pass, a renumbering by first use and a flip pass; and the call, which asks its questions first.
#![tactic(auto)]

ghost use Rattle.std.specs.Prelude.{ℕ, ◌*◌, ◌/◌, ◌≤◌, true, length};
ghost use Rattle.oracle.specs.Round as Round;
ghost use Rattle.flips.specs.Whole.{mesh_of, sheet_of};
ghost use Rattle.improving.specs.Rounded.{Improvable, Rounded};
ghost use Rattle.improving.specs.Stages.{Dropped, Numberable, Numbered};
ghost use Rattle.improving.specs.Improve.{Improving};

use blank::blank;
use closing::clear;
use collapsing::{Areas, note_collapses};
use field::Terms;
use flips::flip_sides;
use questions::Refusal;
use renumber::{drop_gone, number_corners, save_points};
use surface::Mesh;

// What is left after rounds: points, triangles, and how many flips there were.
#[derive(Clone, Copy, Debug, PartialEq, Eq)]
pub struct Left {
    pub points: usize,
    pub triangles: usize,
    pub flips: u32,
}

// The collapses of a round: the triangles that stay, with the corners that they have then, at the front. Returns how many.
fn collapse_slivers(
    points: &[f64],
    corners: &mut [u32],
    labels: &mut [u8],
    terms: &Terms,
    work: &mut [u32],
) -> usize
    requires { Improvable points.now corners.old labels.old work.old }
    ensures { Dropped (Round.dropped true (sheet_of terms.now.coefficients.now terms.now.powers.now) (mesh_of points.now corners.old labels.old)) (length points.now / 3) corners.old labels.old corners.new labels.new result }
{
    let heads = points.len() / 3;
    let touched = Areas::of(corners, heads).touched;
    note_collapses(points, corners, labels, terms, heads, work);
    let n = drop_gone(corners, labels, touched + heads, touched + heads * 2, work);
    blank(corners, n * 3);
    blank(labels, n);
    n
}

// New numbers for the corners, in the order of their first use, and the points in that order. Returns how many.
fn number_by_use(points: &mut [f64], corners: &mut [u32], work: &mut [u32]) -> usize
    requires { Numberable points.old corners.old work.old }
    ensures { Numbered points.old corners.old points.new corners.new result }
{
    let heads = points.len() / 3;
    clear(work, heads);
    save_points(points, heads, work);
    let p = number_corners(points, corners, 0, heads, work);
    blank(points, p * 3);
    p
}

// One round. What is freed at the ends of the lists becomes 0.
// The lists stay three parameters: each stage is lent a front of each, and some are lent to be read alone.
fn round(
    points: &mut [f64],
    corners: &mut [u32],
    labels: &mut [u8],
    terms: &Terms,
    work: &mut [u32],
) -> Left
    requires { Improvable points.old corners.old labels.old work.old }
    ensures { Rounded (Round.round true (sheet_of terms.now.coefficients.now terms.now.powers.now) (mesh_of points.old corners.old labels.old)) 49152 points.old corners.old labels.old points.new corners.new labels.new result.points result.triangles result.flips }
{
    let n = collapse_slivers(points, corners, labels, terms, work);
    let p = number_by_use(points, &mut corners[..n * 3], work);
    let flips = flip_sides(
        &points[..p * 3],
        &mut corners[..n * 3],
        &labels[..n],
        terms,
        work,
    );
    Left {
        points: p,
        triangles: n,
        flips,
    }
}

// The rounds, each on what the one before left.
fn rounds(
    points: &mut [f64],
    corners: &mut [u32],
    labels: &mut [u8],
    terms: &Terms,
    count: u32,
    work: &mut [u32],
) -> Left
    requires improvable { Improvable points.old corners.old labels.old work.old }
    requires count_bound { count ≤ 1000 }
    ensures { Rounded (Round.rounds true (sheet_of terms.now.coefficients.now terms.now.powers.now) count (mesh_of points.old corners.old labels.old)) (49152 * count) points.old corners.old labels.old points.new corners.new labels.new result.points result.triangles result.flips }
{
    let mut left = Left {
        points: points.len() / 3,
        triangles: labels.len(),
        flips: 0,
    };
    for _ in 0..count {
        let next = round(
            &mut points[..left.points * 3],
            &mut corners[..left.triangles * 3],
            &mut labels[..left.triangles],
            terms,
            work,
        );
        left = Left {
            flips: left.flips + next.flips,
            ..next
        };
    }
    left
}

// Improves a closed surface by so many rounds.
pub fn improve(
    points: &mut [f64],
    corners: &mut [u32],
    labels: &mut [u8],
    work: &mut [u32],
    terms: &Terms,
    levels: &[f64; 2],
    bounds: &[f64; 6],
    count: u32,
) -> Result<Left, Refusal>
    ensures { Improving points.old corners.old labels.old work.old terms.now.coefficients.now terms.now.powers.now levels.now bounds.now count points.new corners.new labels.new work.new result }
{
    questions::admitted(
        &Mesh {
            points,
            corners,
            labels,
        },
        work,
    )?;
    if !field::sheet_ok(terms, levels, bounds) {
        return Err(Refusal::FieldSheet);
    }
    if 1000 < count {
        return Err(Refusal::Rounds);
    }
    // As many words as the questions asked for. (In a function of its own the sum would have needs, which the questions tell here.)
    let need = corners.len() / 3 * 32 + points.len() / 3 * 16;
    let left = rounds(points, corners, labels, terms, count, &mut work[..need]);
    clear(work, need);
    Ok(left)
}
