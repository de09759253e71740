// After the collapses of a round: the triangles that stay move forward, and the corners get new numbers in the order of their first use, each with its point.
#![tactic(auto)]

ghost use Rattle.std.specs.Prelude.{◌≡◌, ◌+◌, ◌*◌, ◌<◌, ◌≤◌, length};
ghost use Rattle.renumber.specs.Dropped.{Movable, Moved, Droppable, Dropped};
ghost use Rattle.renumber.specs.Saved.{Saved};
ghost use Rattle.renumber.specs.Numbered.{Numberable, Numbered, loaded, Loadable, Meetable, Met};

use halfedges::wide;
use scores::{get_float, put_float};

// Puts the triangle i, its corners renamed, and its label at the place q.
fn move_triangle(
    corners: &mut [u32],
    labels: &mut [u8],
    into: usize,
    i: usize,
    q: usize,
    work: &[u32],
)
    requires { Movable corners.old labels.old work.now into i q }
    ensures { Moved corners.old labels.old work.now corners.new labels.new into i q }
{
    let a = work[into + wide(corners[3 * i])];
    let b = work[into + wide(corners[3 * i + 1])];
    let c = work[into + wide(corners[3 * i + 2])];
    corners[3 * q] = a;
    corners[3 * q + 1] = b;
    corners[3 * q + 2] = c;
    labels[q] = labels[i];
}

// The triangles that are not gone, at the front. Returns how many.
pub fn drop_gone(
    corners: &mut [u32],
    labels: &mut [u8],
    into: usize,
    gone: usize,
    work: &[u32],
) -> usize
    requires { Droppable corners.old labels.old work.now into gone }
    ensures { Dropped corners.old labels.old work.now corners.new labels.new into gone result }
{
    let mut q: usize = 0;
    for i in 0..labels.len() {
        move_triangle(corners, labels, into, i, q, work);
        q += usize::from(work[gone + i] == 0);
    }
    q
}

// Keeps the coordinates in the words from `saved` on, two for each.
pub fn save_points(points: &[f64], saved: usize, work: &mut [u32])
    requires { saved + length points.now * 2 ≤ length work.old }
    ensures { Saved points.now work.old work.new saved (length points.now) }
{
    for (k, x) in points.iter().enumerate() {
        put_float(work, saved + k * 2, *x);
    }
}

// Point q becomes the saved point v.
fn load_point(points: &mut [f64], saved: usize, v: usize, q: usize, work: &[u32])
    requires { Loadable points.old work.now saved v q }
    ensures { points.new ≡ loaded points.old work.now saved v q }
{
    points[q * 3] = get_float(work, saved + v * 6);
    points[q * 3 + 1] = get_float(work, saved + v * 6 + 2);
    points[q * 3 + 2] = get_float(work, saved + v * 6 + 4);
}

// Gives the corner at k its new number, the next one where it is met first. Returns how many are met.
fn meet_corner(
    points: &mut [f64],
    corners: &mut [u32],
    numbers: usize,
    saved: usize,
    k: usize,
    met: usize,
    work: &mut [u32],
) -> usize
    requires { Meetable points.old corners.old work.old numbers saved k met }
    ensures { Met points.old corners.old work.old points.new corners.new work.new numbers saved k met result }
{
    let v = wide(corners[k]);
    // A work word holds the number and whether there is one: 0, or one more.
    let m = wide(work[numbers + v]);
    if m > 0 {
        corners[k] = (m - 1) as u32;
        return met;
    }
    load_point(points, saved, v, met, work);
    corners[k] = met as u32;
    work[numbers + v] = (met + 1) as u32;
    met + 1
}

// New numbers for the corners, in the order of their first use, and the points in that order. Returns how many.
pub fn number_corners(
    points: &mut [f64],
    corners: &mut [u32],
    numbers: usize,
    saved: usize,
    work: &mut [u32],
) -> usize
    requires { Numberable points.old corners.old work.old numbers saved }
    ensures { Numbered points.old corners.old work.old points.new corners.new work.new numbers result }
{
    let mut met: usize = 0;
    for k in 0..corners.len() {
        met = meet_corner(points, corners, numbers, saved, k, met, work);
    }
    met
}
