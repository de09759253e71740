// The flip pass of a round: each side of two triangles with one label, in rising order, is flipped where that helps the worse shape or evens the degrees.
#![tactic(auto)]

ghost use Rattle.std.specs.Prelude.{◌≡◌, true, false, ℕ, ◌+◌, ◌*◌, ◌/◌, ◌%◌, ◌<◌, ◌≤◌, length};
ghost use Rattle.surface.specs.Triangle.{triangles};
ghost use Rattle.surface.specs.Closed.{Closed, one};
ghost use Rattle.halfedges.specs.Place.{at};
ghost use Rattle.sorting.specs.Stable.{part};
ghost use Rattle.oracle.specs.Scene.{scene};
ghost use Rattle.scores.specs.Measures as Scores;
ghost use Rattle.scores.specs.Measures.{Filled};
ghost use Rattle.chains.specs.Marks.{Lists};
ghost use Rattle.flips.specs.Whole.{across_from, ListNoted, Begun, Flippable, Flipped};
ghost use Rattle.flips.specs.Quads.{quad_of, quad_at, begun_at, touches, evens_at, before_at, first_of, gains_of, improves_at, flip_corners, touch_four, Words, Pointed, BothHeld, Ready, quad_in, decides_at, Tried, Shaped, Standing, Passed};

use field::Terms;
use float::{max, min};
use halfedges::{after, before};
use marks::{chain_at, clear_from, mark_across};
use scores::{get_float, put_float, score, score_at};
use sides::{count_valences, list_sides};
use surface::put_triangle;
use words::{put, word};

// The four corners of a side's two triangles, `one` and `two` in the list: the earlier runs from u to v, with c opposite, and d is opposite in the later. `across` is the place of c.
#[derive(Clone, Copy, Debug, PartialEq, Eq)]
pub struct Quad {
    pub one: usize,
    pub two: usize,
    pub u: usize,
    pub v: usize,
    pub c: usize,
    pub d: usize,
    pub across: usize,
}

// How many points there are, and where the pass keeps in the words: the places of the sides, which corners are joined across a side, the corners as it begins, the shapes, and which corners are touched.
#[derive(Clone, Copy, Debug, PartialEq, Eq)]
struct Areas {
    heads: usize,
    sides: usize,
    across: usize,
    begun: usize,
    kept: usize,
    touched: usize,
}

// The side of the place j, whose twin l comes after it.
fn quad_of(begun: usize, places: usize, j: usize, l: usize, work: &[u32]) -> Quad
    requires places_value { (places % 3 ≡ 0) × (places ≤ 98304) × (begun + places ≤ length work.now) }
    requires j_lt_places { (j < places) × (l < places) }
    ensures { result ≡ quad_of (begun_at work.now begun places) j l }
{
    let across = before(j);
    Quad {
        one: j / 3,
        two: l / 3,
        u: word(work, begun + j),
        v: word(work, begun + after(j)),
        c: word(work, begun + across),
        d: word(work, begun + before(l)),
        across,
    }
}

// The side of the place k, by its twin.
fn quad_at(begun: usize, places: usize, twins: usize, k: usize, work: &[u32]) -> Quad
    requires places_value { (places % 3 ≡ 0) × (places ≤ 98304) × (begun + places ≤ length work.now) }
    requires places_in_bounds { (twins + places ≤ length work.now) × (k < places) × (at work.now (twins + k) < places) }
    ensures { result ≡ quad_at (begun_at work.now begun places) k (at work.now (twins + k)) }
{
    let t = word(work, twins + k);
    if t < k {
        return quad_of(begun, places, t, k, work);
    }
    quad_of(begun, places, k, t, work)
}

// Whether a corner of the four is touched.
fn is_touched(touched: usize, q: Quad, work: &[u32]) -> bool
    requires { Words touched q (length work.now) }
    ensures { result ≡ touches work.now touched q }
{
    word(work, touched + q.u) != 0
        || word(work, touched + q.v) != 0
        || word(work, touched + q.c) != 0
        || word(work, touched + q.d) != 0
}

// Whether the flip brings the four degrees nearer to 6, by the sum of squares.
fn evens(degrees: usize, q: Quad, work: &[u32]) -> bool
    requires { Words degrees q (length work.now) }
    ensures { result ≡ evens_at work.now degrees q }
{
    let x = word(work, degrees + q.u) + word(work, degrees + q.v);
    let y = word(work, degrees + q.c) + word(work, degrees + q.d);
    y + 2 < x
}

// The worse shape of the two triangles as they are.
fn shape_before(kept: usize, q: Quad, work: &[u32]) -> f64
    requires { BothHeld work.now kept q }
    ensures { result ≡ before_at work.now kept q }
{
    min(
        get_float(work, kept + q.one * 2),
        get_float(work, kept + q.two * 2),
    )
}

// The shape of the first of the two triangles that a flip would make. The worse of both is no better.
fn shape_first(points: &[f64], terms: &Terms, q: Quad, label: u8) -> f64
    requires { Pointed q (length points.now) }
    ensures { result ≡ first_of (scene points.now terms.now.coefficients.now terms.now.powers.now) q label }
{
    let first = score(points, terms, q.c, q.d, q.v, label);
    min(f64::INFINITY, first)
}

// Whether the worse shape, x before and y after, gains more than 0.01; or the degrees gain, and it is no worse than it was and than 0.5.
fn gains(x: f64, even: bool, y: f64) -> bool
    ensures { result ≡ gains_of x even y }
{
    x + 0.01 < y || (even && max(x, 0.5) <= y)
}

// Whether the flip helps. Where it would not by the first shape alone, the second is not computed.
fn improves(points: &[f64], terms: &Terms, areas: Areas, q: Quad, label: u8, work: &[u32]) -> bool
    requires corners { Pointed q (length points.now) }
    requires words { Words areas.heads q (length work.now) }
    requires held { BothHeld work.now areas.kept q }
    ensures { result ≡ improves_at (scene points.now terms.now.coefficients.now terms.now.powers.now) work.now areas.heads areas.kept q label }
{
    let x = shape_before(areas.kept, q, work);
    let even = evens(areas.heads, q, work);
    let first = shape_first(points, terms, q, label);
    if !gains(x, even, first) {
        return false;
    }
    let second = score(points, terms, q.d, q.c, q.u, label);
    gains(x, even, min(first, second))
}

fn flip_corners(corners: &mut [u32], q: Quad)
    requires one_in_bounds { (q.one * 3 + 2 < length corners.old) × (q.two * 3 + 2 < length corners.old) }
    requires words { Words 0 q 4294967296 }
    ensures { corners.new ≡ flip_corners q corners.old }
{
    put_triangle(corners, q.one, [q.c as u32, q.d as u32, q.v as u32]);
    put_triangle(corners, q.two, [q.d as u32, q.c as u32, q.u as u32]);
}

fn touch_four(touched: usize, q: Quad, work: &mut [u32])
    requires { Words touched q (length work.old) }
    ensures { work.new ≡ touch_four touched q work.old }
{
    put(work, touched + q.u, 1);
    put(work, touched + q.v, 1);
    put(work, touched + q.c, 1);
    put(work, touched + q.d, 1);
}

// Flips the side of the place k where it may and should be. Answers whether it is flipped. (The corners are lent to be written, so that the three lists are no `Mesh` here.)
fn flip_side(
    points: &[f64],
    corners: &mut [u32],
    labels: &[u8],
    terms: &Terms,
    areas: Areas,
    k: usize,
    work: &mut [u32],
) -> bool
    requires ready { Ready (scene points.now terms.now.coefficients.now terms.now.powers.now) (part work.old areas.begun (length corners.old)) labels.now areas.heads work.old areas.across areas.begun areas.kept areas.touched }
    requires corners_in_bounds { areas.begun + length corners.old ≤ length work.old }
    requires k_in_bounds { k < length corners.old }
    ensures { Tried (decides_at (scene points.now terms.now.coefficients.now terms.now.powers.now) labels.now areas.heads (length corners.old) areas.across areas.begun areas.kept areas.touched work.old k) (quad_in areas.heads (length corners.old) areas.begun work.old k) areas.touched corners.old corners.new work.old work.new result }
{
    let q = quad_at(
        areas.begun,
        corners.len(),
        areas.heads * 3 + corners.len(),
        k,
        work,
    );
    let one = q.one;
    let two = q.two;
    let label = labels[one];
    if label != labels[two] {
        return false;
    }
    if is_touched(areas.touched, q, work) {
        return false;
    }
    if word(work, areas.across + q.across) != 0 {
        return false;
    }
    if improves(points, terms, areas, q, label, work) {
        flip_corners(corners, q);
        touch_four(areas.touched, q, work);
        return true;
    }
    false
}

// The corners as the pass begins, from `begun` on.
fn copy_corners(corners: &[u32], begun: usize, work: &mut [u32])
    requires { begun + length corners.now ≤ length work.old }
    ensures { Filled (at corners.now) begun work.old work.new (length corners.now) }
{
    work[begun..begun + corners.len()].copy_from_slice(corners);
}

// The shape of each triangle, in two words, from `kept` on.
fn keep_scores(
    points: &[f64],
    corners: &[u32],
    labels: &[u8],
    terms: &Terms,
    kept: usize,
    work: &mut [u32],
)
    requires lists { Scores.Lists points.now corners.now labels.now }
    requires labels_in_bounds { kept + length labels.now * 2 ≤ length work.old }
    ensures { Shaped (scene points.now terms.now.coefficients.now terms.now.powers.now) corners.now labels.now kept work.old work.new (length labels.now) }
{
    for i in 0..labels.len() {
        let q = score_at(points, corners, labels, terms, i);
        put_float(work, kept + i * 2, q);
    }
}

// Tries the `count` sides of the pass. Returns how many are flipped.
fn flip_each(
    points: &[f64],
    corners: &mut [u32],
    labels: &[u8],
    terms: &Terms,
    areas: Areas,
    count: usize,
    work: &mut [u32],
) -> u32
    requires ready { Ready (scene points.now terms.now.coefficients.now terms.now.powers.now) corners.old labels.now areas.heads work.old areas.across areas.begun areas.kept areas.touched }
    requires standing { Standing corners.old work.old areas.sides count areas.begun areas.touched }
    requires by_index { (x : ℕ) → x < areas.heads → at work.old (areas.touched + x) ≡ 0 }
    ensures { Passed (scene points.now terms.now.coefficients.now terms.now.powers.now) corners.old labels.now areas.heads work.old areas.sides count areas.touched corners.new work.new result }
{
    let mut flips: u32 = 0;
    for i in 0..count {
        let k = word(work, areas.sides + i);
        let flipped = flip_side(points, corners, labels, terms, areas, k, work);
        flips += u32::from(flipped);
    }
    flips
}

// The twins, the degrees, the places of the sides, and which corners are joined across a side. Returns how many sides there are.
fn mark_list(corners: &[u32], heads: usize, work: &mut [u32]) -> usize
    requires lists { Lists corners.now heads }
    requires closed { Closed (triangles corners.now) }
    requires corners_in_bounds { across_from corners.now heads + length corners.now ≤ length work.old }
    ensures { ListNoted corners.now heads work.old work.new result }
{
    let places = corners.len();
    let chains = heads * 3 + places * 3 + places / 2;
    let stamps = chains + heads + places;
    let count = list_sides(corners, heads, work);
    count_valences(corners, heads, work);
    chain_at(corners, heads, chains, work);
    mark_across(corners, heads, chains, stamps, stamps + heads, work);
    count
}

// What the pass reads besides: the corners as it begins and the shapes. No corner is touched.
fn begin_pass(
    points: &[f64],
    corners: &[u32],
    labels: &[u8],
    terms: &Terms,
    areas: Areas,
    work: &mut [u32],
)
    requires lists { Scores.Lists points.now corners.now labels.now }
    requires corners_bound { (areas.begun + length corners.now ≤ areas.kept) × (areas.kept + length labels.now * 2 ≤ areas.touched) × (areas.touched + length points.now / 3 ≤ length work.old) }
    ensures { Begun (scene points.now terms.now.coefficients.now terms.now.powers.now) corners.now labels.now areas.begun areas.kept areas.touched work.old work.new }
{
    copy_corners(corners, areas.begun, work);
    keep_scores(points, corners, labels, terms, areas.kept, work);
    clear_from(areas.touched, points.len() / 3, work);
}

// The flip pass over a closed list. Returns how many sides are flipped.
pub fn flip_sides(
    points: &[f64],
    corners: &mut [u32],
    labels: &[u8],
    terms: &Terms,
    work: &mut [u32],
) -> u32
    requires { Flippable points.now corners.old labels.now work.old }
    ensures { Flipped points.now terms.now.coefficients.now terms.now.powers.now corners.old labels.now work.old corners.new work.new result }
{
    let heads = points.len() / 3;
    let places = corners.len();
    let sides = heads * 3 + places * 3;
    let across = sides + places / 2 + heads + places + heads;
    let begun = across + places;
    let kept = begun + places;
    let touched = kept + labels.len() * 2;
    let areas = Areas {
        heads,
        sides,
        across,
        begun,
        kept,
        touched,
    };
    let count = mark_list(corners, heads, work);
    begin_pass(points, corners, labels, terms, areas, work);
    flip_each(points, corners, labels, terms, areas, count, work)
}
