// `validate`: whether a surface is closed and encloses a volume, its smallest quality and that volume.
#![tactic(auto)]

ghost use Rattle.std.specs.Prelude.{◌≡◌, ◌/◌, ◌<◌, length, Ok};
ghost use Rattle.float.specs.Point.{difference};
ghost use Rattle.quality.specs.Quality.{scale};
ghost use Rattle.closing.specs.Closing.{Lent};
ghost use Rattle.checking.specs.Validate.{point_at, outside, next, measured, Validated};
ghost use Rattle.checking.specs.Stages.{tri_of, Sized, Examined, WholeAsked};

use halfedges::wide;
use questions::Refusal;
use surface::Mesh;

// The smallest quality and the volume.
#[derive(Clone, Copy, Debug, PartialEq)]
pub struct Measures {
    pub quality: f64,
    pub volume: f64,
}

// The point of a number. (`float` has its twin `point_at`: this one asks only that the number is below how many points there are, and is by 3 * i, as the theorems have it.)
pub fn point(points: &[f64], i: usize) -> float::Point
    requires { i < length points.now / 3 }
    ensures { result ≡ point_at points.now i }
{
    let at = 3 * i;
    float::Point {
        x: points[at],
        y: points[at + 1],
        z: points[at + 2],
    }
}

// Point 0, where there is one.
fn origin(points: &[f64]) -> float::Point
    ensures { 0 < length points.now / 3 → result ≡ point_at points.now 0 }
{
    if points.len() < 3 {
        return float::Point {
            x: 0.0,
            y: 0.0,
            z: 0.0,
        };
    }
    point(points, 0)
}

// Whether a corner of the triangle is not below n.
fn beyond(n: usize, t: [u32; 3]) -> bool
    ensures { result ≡ outside n (tri_of t) }
{
    t.iter().any(|v| n <= wide(*v))
}

// A corner's point less the origin.
fn place(points: &[f64], i: usize, origin: float::Point) -> float::Point
    requires { i < length points.now / 3 }
    ensures { result ≡ difference (point_at points.now i) origin }
{
    point(points, i).sub(origin)
}

// The measures with one more triangle, or why it is refused.
fn step(
    points: &[f64],
    origin: float::Point,
    factor: f64,
    t: [u32; 3],
    so_far: Measures,
) -> Result<Measures, Refusal>
    requires { (factor ≡ scale) × (0 < length points.now / 3 → origin ≡ point_at points.now 0) }
    ensures { result ≡ next points.now (Ok so_far) (tri_of t) }
{
    if beyond(points.len() / 3, t) {
        return Err(Refusal::CornerMissing);
    }
    let a = place(points, wide(t[0]), origin);
    let b = place(points, wide(t[1]), origin);
    let c = place(points, wide(t[2]), origin);
    let Some(quality) = quality::least(factor, so_far.quality, a, b, c) else {
        return Err(Refusal::Degenerate);
    };
    let volume = so_far.volume + quality::share(a, b, c);
    Ok(Measures { quality, volume })
}

// Questions 5 and 6, triangle by triangle, with the smallest quality and the volume. What is left over of either list is not read.
fn measure(points: &[f64], corners: &[u32]) -> Result<Measures, Refusal>
    ensures { result ≡ measured points.now corners.now }
{
    let origin = origin(points);
    let factor = quality::factor();
    let mut so_far = Measures {
        quality: 1.0,
        volume: 0.0,
    };
    for t in corners.chunks_exact(3) {
        so_far = step(points, origin, factor, [t[0], t[1], t[2]], so_far)?;
    }
    Ok(so_far)
}

// Questions 7 and 8, of a surface with these measures.
fn whole(
    corners: &[u32],
    points: usize,
    measures: Measures,
    work: &mut [u32],
) -> Result<Measures, Refusal>
    requires { Lent corners.now points work.old }
    ensures { WholeAsked corners.now points measures work.old work.new result }
{
    let found = closing::finding(corners, points, work);
    questions::on_finding(found)?;
    if !float::is_finite(measures.volume) {
        return Err(Refusal::Volume);
    }
    if measures.volume <= 0.0 {
        return Err(Refusal::Volume);
    }
    Ok(measures)
}

// Questions 5 to 8.
fn examine(points: &[f64], corners: &[u32], work: &mut [u32]) -> Result<Measures, Refusal>
    requires { Sized points.now corners.now work.old }
    ensures { Examined points.now corners.now work.old work.new result }
{
    if corners.is_empty() {
        closing::clear_needed(corners, points.len() / 3, work);
        return Ok(Measures {
            quality: 0.0,
            volume: 0.0,
        });
    }
    match measure(points, corners) {
        Ok(measures) => whole(corners, points.len() / 3, measures, work),
        Err(why) => {
            closing::clear_needed(corners, points.len() / 3, work);
            Err(why)
        }
    }
}

// The verdict on a surface.
pub fn validate(mesh: &Mesh, work: &mut [u32]) -> Result<Measures, Refusal>
    ensures { Validated mesh.now.points.now mesh.now.corners.now mesh.now.labels.now work.old work.new result }
{
    questions::lent(mesh, work)?;
    examine(mesh.points, mesh.corners, work)
}
