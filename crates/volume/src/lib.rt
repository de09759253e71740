// The exact volume of a surface on whole units.
#![tactic(auto)]

ghost use Rattle.std.specs.Prelude.{◌≡◌, ◌/◌, ◌<◌, length};
ghost use Rattle.surface.specs.Triangle.{tri};
ghost use Rattle.units.specs.Units.{AllOnUnits, units_at};
ghost use Rattle.volume.specs.Six.{six_at};
ghost use Rattle.volume.specs.Exact.{Measurable, ExactSix};
ghost use Rattle.volume.specs.Stages.{lifted};

use checking::point;
use halfedges::wide;

// Six times a volume, as a whole number of (1/1024)^3: high * 2^31 + low.
#[derive(Clone, Copy, Debug, PartialEq, Eq)]
pub struct Sixfold {
    pub high: i64,
    pub low: u64,
}

// Six times the volume between a triangle and point 0, and 2^51, which makes it positive. Each operation is exact.
fn share(points: &[f64], a: usize, b: usize, c: usize) -> u64
    requires { (AllOnUnits points.now) × (a < length points.now / 3) × (b < length points.now / 3) × (c < length points.now / 3) }
    ensures { result ≡ lifted (six_at (units_at points.now 0) (units_at points.now) (tri a b c)) }
{
    let origin = point(points, 0);
    let p = point(points, a).sub(origin);
    let q = point(points, b).sub(origin);
    let r = point(points, c).sub(origin);
    (p.dot(q.cross(r)) * 1073741824.0 + 2251799813685248.0) as u64
}

// Six times the volume of the triangles. (By the number of the triangle, not in chunks: it tells how many lifts are in the sum.)
pub fn exact(points: &[f64], corners: &[u32]) -> Sixfold
    requires { Measurable points.now corners.now }
    ensures { ExactSix points.now corners.now result }
{
    let mut high = 0;
    let mut low = 0;
    for i in 0..corners.len() / 3 {
        let at = 3 * i;
        let e = share(
            points,
            wide(corners[at]),
            wide(corners[at + 1]),
            wide(corners[at + 2]),
        );
        let sum = low + e % 2147483648;
        high += e / 2147483648 + sum / 2147483648;
        low = sum % 2147483648;
    }
    let lifted = (corners.len() / 3 * 1048576) as i64;
    Sixfold {
        high: (high as i64) - lifted,
        low,
    }
}
