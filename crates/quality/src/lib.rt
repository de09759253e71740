// One triangle of a surface, by the points of its corners: its quality and its share of the volume, with each operation rounded in the order of `validate`.
#![tactic(auto)]

ghost use Rattle.std.specs.Prelude.{◌≡◌, true};
ghost use Rattle.float.specs.Point.{dotted};
ghost use Rattle.quality.specs.Quality.{scale, normal, squares, quality, wedge, least_with};
ghost use Rattle.quality.specs.Quick.{sized_of, Passes};

// 2 * sqrt 3, which makes the quality of an equal-sided triangle 1. (Computed once a surface and handed down: a literal would not show that it is this root.)
pub fn factor() -> f64
    ensures { result ≡ scale }
{
    2.0 * float::sqrt(3.0)
}

// The squared length of the normal of the triangle a, b, c.
fn normal_squared(a: float::Point, b: float::Point, c: float::Point) -> f64
    ensures { result ≡ dotted (normal a b c) (normal a b c) }
{
    let n = b.sub(a).cross(c.sub(a));
    n.dot(n)
}

// The sum of its squared sides.
fn sides_squared(a: float::Point, b: float::Point, c: float::Point) -> f64
    ensures { result ≡ squares a b c }
{
    let ab = b.sub(a);
    let bc = c.sub(b);
    let ca = a.sub(c);
    ab.dot(ab) + bc.dot(bc) + ca.dot(ca)
}

// Whether x lies between 2^-500 and 2^500.
fn sized(x: f64) -> bool
    ensures { result ≡ sized_of x }
{
    3.054936363499605e-151 < x && x < 3.273390607896142e150
}

// A quick test, with no root, that passes for most triangles: the quality is kept and is at least the minimum.
// The factor 0.28.. is a little above 1 / (2 * sqrt 3), and nothing rests on it.
fn passes(factor: f64, minimum: f64, d: f64, sum: f64) -> bool
    requires { factor ≡ scale }
    ensures { result ≡ true → Passes minimum d sum }
{
    let s = minimum * sum * 0.2886751348;
    if !(s * s < d) {
        return false;
    }
    if !sized(minimum) {
        return false;
    }
    if !sized(d) {
        return false;
    }
    if !sized(sum) {
        return false;
    }
    if !sized(s) {
        return false;
    }
    minimum <= factor * s / sum
}

// The least quality with the triangle a, b, c, where minimum is the least so far; none where its quality is not finite or not above 0.
pub fn least(
    factor: f64,
    minimum: f64,
    a: float::Point,
    b: float::Point,
    c: float::Point,
) -> Option<f64>
    requires { factor ≡ scale }
    ensures { result ≡ least_with minimum (quality a b c) }
{
    let d = normal_squared(a, b, c);
    let sum = sides_squared(a, b, c);
    if passes(factor, minimum, d, sum) {
        return Some(minimum);
    }
    let q = factor * float::sqrt(d) / sum;
    if !float::is_finite(q) {
        return None;
    }
    if q <= 0.0 {
        return None;
    }
    Some(float::min(minimum, q))
}

// The signed volume between the triangle a, b, c and the origin.
pub fn share(a: float::Point, b: float::Point, c: float::Point) -> f64
    ensures { result ≡ wedge a b c }
{
    a.dot(b.cross(c)) / 6.0
}
