// The float part of a round: floats kept in work words, the shapes of the triangles of a list, the squared lengths of its sides and their mean, and the sides that a round tries to collapse.
#![tactic(auto)]

ghost use Rattle.std.specs.Prelude.{◌≡◌, true, false, ℕ, ◌+◌, ◌*◌, ◌/◌, ◌<◌, ◌≤◌, length};
ghost use Rattle.surface.specs.Triangle.{tri};
ghost use Rattle.surface.specs.Closed.{one};
ghost use Rattle.halfedges.specs.Place.{nx, at};
ghost use Rattle.oracle.specs.Scene as Scene;
ghost use Rattle.oracle.specs.Scene.{scene};
ghost use Rattle.scores.specs.Words.{put_at, float_at, Held};
ghost use Rattle.scores.specs.Measures.{Pointed, Lists, score_at, weak_at, Filled, Measurable, Measured, Marked, picks, Picked};

use field::Terms;
use float::point_at;
use halfedges::{after, wide};

// Keeps a float in the two words from `at` on, by its bits. A NaN is kept as the one NaN of the logic.
pub fn put_float(work: &mut [u32], at: usize, x: f64)
    requires { at + 1 < length work.old }
    ensures { work.new ≡ put_at work.old at x }
{
    if x.is_nan() {
        work[at] = 0x7ff8_0000;
        work[at + 1] = 0;
        return;
    }
    let b = f64::to_bits(x);
    let high = b / 4294967296;
    let low = b % 4294967296;
    work[at] = high as u32;
    work[at + 1] = low as u32;
}

// The float that is kept in the two words from `at` on.
pub fn get_float(work: &[u32], at: usize) -> f64
    requires { Held work.now at }
    ensures { result ≡ float_at work.now at }
{
    let high = u64::from(work[at]);
    let low = u64::from(work[at + 1]);
    let b = high * 4294967296 + low;
    if b == 0x7ff8_0000_0000_0000 {
        return f64::NAN;
    }
    f64::from_bits(b)
}

// The shape of the triangle a, b, c with a label.
pub fn score(points: &[f64], terms: &Terms, a: usize, b: usize, c: usize, label: u8) -> f64
    requires { (a * 3 + 2 < length points.now) × (b * 3 + 2 < length points.now) × (c * 3 + 2 < length points.now) }
    ensures { result ≡ Scene.score (scene points.now terms.now.coefficients.now terms.now.powers.now) (tri a b c) label }
{
    terms.shape(
        point_at(points, a),
        point_at(points, b),
        point_at(points, c),
        label,
    )
}

// The shape of the triangle i of a list.
pub fn score_at(points: &[f64], corners: &[u32], labels: &[u8], terms: &Terms, i: usize) -> f64
    requires lists { Lists points.now corners.now labels.now }
    requires i_in_bounds { i < length labels.now }
    ensures { result ≡ score_at (scene points.now terms.now.coefficients.now terms.now.powers.now) corners.now labels.now i }
{
    score(
        points,
        terms,
        wide(corners[i * 3]),
        wide(corners[i * 3 + 1]),
        wide(corners[i * 3 + 2]),
        labels[i],
    )
}

// The square of the distance of two corners.
pub fn squared(points: &[f64], a: usize, b: usize) -> f64
    requires { (a * 3 + 2 < length points.now) × (b * 3 + 2 < length points.now) }
    ensures { result ≡ Scene.squared points.now a b }
{
    let d = point_at(points, a).sub(point_at(points, b));
    d.dot(d)
}

// The square of the length of the side of the place k.
fn side_squared(points: &[f64], corners: &[u32], k: usize) -> f64
    requires pointed { Pointed points.now corners.now }
    requires k_in_bounds { k < length corners.now }
    ensures { result ≡ Scene.squared points.now (at corners.now k) (at corners.now (nx k)) }
{
    squared(points, wide(corners[k]), wide(corners[after(k)]))
}

// Marks each triangle with 1 where its shape is below 0.4, else with 0.
pub fn mark_weak(
    points: &[f64],
    corners: &[u32],
    labels: &[u8],
    terms: &Terms,
    marks: usize,
    work: &mut [u32],
)
    requires lists { Lists points.now corners.now labels.now }
    requires labels_in_bounds { marks + length labels.now ≤ length work.old }
    ensures { Filled (λ (i : ℕ). one (weak_at (scene points.now terms.now.coefficients.now terms.now.powers.now) corners.now labels.now i)) marks work.old work.new (length labels.now) }
{
    for i in 0..labels.len() {
        let q = score_at(points, corners, labels, terms, i);
        work[marks + i] = u32::from(q < 0.4);
    }
}

// Keeps the squared length of each side as its key, and adds them in order.
pub fn measure_sides(
    points: &[f64],
    corners: &[u32],
    sides: usize,
    count: usize,
    keys: usize,
    work: &mut [u32],
) -> f64
    requires { Measurable points.now corners.now work.old sides count keys (2 * count) }
    ensures { Measured points.now corners.now work.old work.new sides count keys result }
{
    let mut sum = 0.0;
    for i in 0..count {
        let k = wide(work[sides + i]);
        let q = side_squared(points, corners, k);
        put_float(work, keys + 2 * i, q);
        sum = sum + q;
    }
    sum
}

// Whether the side of the place k is shorter than the limit and one of its two triangles is weak.
fn is_candidate(
    points: &[f64],
    corners: &[u32],
    twins: usize,
    marks: usize,
    limit: f64,
    k: usize,
    work: &[u32],
) -> bool
    requires pointed { Pointed points.now corners.now }
    requires marked { Marked corners.now work.now twins marks (length work.now) }
    requires k_in_bounds { k < length corners.now }
    ensures { result ≡ picks points.now corners.now twins marks limit work.now k }
{
    let q = side_squared(points, corners, k);
    if q < limit {
        if work[marks + k / 3] == 1 {
            return true;
        }
        let t = wide(work[twins + k]);
        return work[marks + t / 3] == 1;
    }
    false
}

// Lists the numbers of the sides that a round tries to collapse, in their order. Returns how many.
pub fn pick_candidates(
    points: &[f64],
    corners: &[u32],
    twins: usize,
    sides: usize,
    count: usize,
    marks: usize,
    items: usize,
    limit: f64,
    work: &mut [u32],
) -> usize
    requires measurable { Measurable points.now corners.now work.old sides count items count }
    requires marked { Marked corners.now work.old twins marks items }
    ensures { Picked (λ (i : ℕ). picks points.now corners.now twins marks limit work.old (at work.old (sides + i))) work.old work.new count items result }
{
    let mut n: usize = 0;
    for i in 0..count {
        let k = wide(work[sides + i]);
        let yes = is_candidate(points, corners, twins, marks, limit, k, work);
        work[items + n] = i as u32;
        n += usize::from(yes);
    }
    n
}
