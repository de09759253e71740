// A field given by a sheet of terms: its value, its slopes and its normals, the shape of a triangle, and which sheets
// are taken.
#![tactic(auto)]

ghost use Rattle.std.specs.Prelude.{◌≡◌, ◌≢◌, ◌-◌, ◌≤◌, ◌<◌, Float};
ghost use Rattle.float.specs.Order.{is_finite};
ghost use Rattle.float.specs.Point.{plus};
ghost use Rattle.field.specs.Sheet as Sheet;
ghost use Rattle.field.specs.Shape as Shape;
ghost use Rattle.field.specs.Valid as Valid;

use float::Point;

// v to the power n: 1, v, v·v, (v·v)·v.
#[tactic(auto, unfolding(crate::specs::Sheet::power))]
fn power(v: f64, n: u32) -> f64
    ensures { result ≡ Sheet.power v n }
{
    match n {
        0 => 1.0,
        1 => v,
        2 => v * v,
        _ => (v * v) * v,
    }
}

// One term, q·x^i·y^j·z^k.
#[derive(Clone, Copy, Debug, PartialEq)]
struct Term {
    q: f64,
    i: u32,
    j: u32,
    k: u32,
}

impl Term {
    // ((q·x^i)·y^j)·z^k.
    fn value(self, p: Point) -> f64
        ensures { result ≡ Sheet.monomial self.q self.i self.j self.k p }
    {
        self.q * power(p.x, self.i) * power(p.y, self.j) * power(p.z, self.k)
    }
}

// The sum of slopes along an axis with that of one more term on top, if it has one: q and n are the
// term's coefficient and power of that axis, and `term` gives its value with others.
fn slope<F: FnOnce(f64, u32) -> f64>(sum: f64, q: f64, n: u32, term: F) -> f64
    requires { F.IsAlwaysCallable term }
    ensures none { n ≡ 0 → result ≡ sum }
    ensures one { n ≢ 0 → (v : Float) × F.post term (Sheet.scaled q n) (n - 1) v × result ≡ plus sum v }
{
    if n == 0 {
        return sum;
    }
    sum + term(q * f64::from(n), n - 1)
}

// The terms of a sheet: their coefficients, and their powers, three to a term.
#[derive(Clone, Copy)]
pub struct Terms<'a> {
    pub coefficients: &'a [f64],
    pub powers: &'a [u32],
}

impl<'a> Terms<'a> {
    // How many there are: those with a coefficient and three powers.
    fn count(&self) -> usize
        ensures { result ≡ Sheet.terms self.now.coefficients.now self.now.powers.now }
    {
        self.coefficients.len().min(self.powers.len() / 3)
    }

    fn term(&self, t: usize) -> Term
        requires { t < Sheet.terms self.now.coefficients.now self.now.powers.now }
        ensures q { result.q ≡ Sheet.coefficient self.now.coefficients.now t }
        ensures i { result.i ≡ Sheet.power_x self.now.powers.now t }
        ensures j { result.j ≡ Sheet.power_y self.now.powers.now t }
        ensures k { result.k ≡ Sheet.power_z self.now.powers.now t }
    {
        Term {
            q: self.coefficients[t],
            i: self.powers[t * 3],
            j: self.powers[t * 3 + 1],
            k: self.powers[t * 3 + 2],
        }
    }

    // The field's value at p.
    pub fn value(&self, p: Point) -> f64
        ensures { result ≡ Sheet.value self.now.coefficients.now self.now.powers.now p }
    {
        let mut sum = 0.0;
        for t in 0..self.count() {
            sum += self.term(t).value(p);
        }
        sum
    }

    // The field's slopes at p.
    fn gradient(&self, p: Point) -> Point
        ensures { result ≡ Sheet.gradient self.now.coefficients.now self.now.powers.now p }
    {
        let mut x = 0.0;
        let mut y = 0.0;
        let mut z = 0.0;
        for t in 0..self.count() {
            let term = self.term(t);
            x = slope(x, term.q, term.i, |q, i| Term { q, i, ..term }.value(p));
            y = slope(y, term.q, term.j, |q, j| Term { q, j, ..term }.value(p));
            z = slope(z, term.q, term.k, |q, k| Term { q, k, ..term }.value(p));
        }
        Point { x, y, z }
    }

    // The outward normal at p of the surface with a label.
    fn normal(&self, p: Point, label: u8) -> Point
        ensures { result ≡ Sheet.normal self.now.coefficients.now self.now.powers.now p label }
    {
        match label {
            0 => stretched(unit(self.gradient(p)), 1.0),
            1 => stretched(unit(self.gradient(p)), -1.0),
            _ => wall(label),
        }
    }

    // The shape of the triangle a, b, c on the surface with a label.
    pub fn shape(&self, a: Point, b: Point, c: Point, label: u8) -> f64
        ensures { result ≡ Shape.shape self.now.coefficients.now self.now.powers.now a b c label }
    {
        formed(
            b.sub(a),
            c.sub(a),
            c.sub(b),
            self.normal(middle(a, b, c), label),
        )
    }

    // Whether they are at most 64, three powers to each, the coefficients finite and the powers small.
    #[tactic(auto, unfolding(crate::specs::Valid::terms_ok))]
    fn are_ok(&self) -> bool
        ensures { result ≡ Valid.terms_ok self.now.coefficients.now self.now.powers.now }
    {
        self.coefficients.len() <= 64
            && self.powers.len() == self.coefficients.len() * 3
            && all_finite(self.coefficients)
            && all_small(self.powers)
    }
}

// Each coordinate times s.
fn stretched(a: Point, s: f64) -> Point
    ensures { result ≡ Sheet.stretched a s }
{
    Point {
        x: a.x * s,
        y: a.y * s,
        z: a.z * s,
    }
}

// a over its length, or over 1e-300 where that is shorter.
fn unit(a: Point) -> Point
    ensures { result ≡ Sheet.unit a }
{
    stretched(a, 1.0 / float::max(a.norm(), 1e-300))
}

// The coordinate along an axis of the outward direction of a wall of the box.
fn along(axis: u8, label: u8) -> f64
    requires { 2 ≤ label }
    ensures { result ≡ Sheet.along axis label }
{
    if (label - 2) / 2 != axis {
        0.0
    } else if label % 2 == 0 {
        -1.0
    } else {
        1.0
    }
}

// The outward direction of a wall of the box.
fn wall(label: u8) -> Point
    requires { 2 ≤ label }
    ensures { result ≡ Sheet.wall label }
{
    Point {
        x: along(0, label),
        y: along(1, label),
        z: along(2, label),
    }
}

// ((a + b) + c) / 3.
fn third(a: f64, b: f64, c: f64) -> f64
    ensures { result ≡ Shape.third a b c }
{
    ((a + b) + c) / 3.0
}

// The middle of a triangle.
fn middle(a: Point, b: Point, c: Point) -> Point
    ensures { result ≡ Shape.middle a b c }
{
    Point {
        x: third(a.x, b.x, c.x),
        y: third(a.y, b.y, c.y),
        z: third(a.z, b.z, c.z),
    }
}

// The shape of a triangle by its sides and the normal of its surface. The number is 2·√3.
fn formed(e: Point, d: Point, o: Point, n: Point) -> f64
    ensures { result ≡ Shape.formed e d o n }
{
    (3.4641016151377544 * e.cross(d).dot(n)) / float::max((e.dot(e) + d.dot(d)) + o.dot(o), 1e-300)
}

// Whether every number of a list is finite. (`questions` has one over `surface`'s definition, not over this crate's,
// with a loop that tests several at a time.)
pub fn all_finite(numbers: &[f64]) -> bool
    ensures { result ≡ Valid.every is_finite numbers.now }
{
    numbers.iter().all(|x| float::is_finite(*x))
}

// Whether every power is at most 3.
fn all_small(powers: &[u32]) -> bool
    ensures { result ≡ Valid.every Valid.is_power powers.now }
{
    powers.iter().all(|n| *n <= 3)
}

// Whether the lower level is finite or -infinity, and the upper one finite and greater. What is less
// than a finite number is finite or -infinity.
#[tactic(auto, using(crate::proofs::Checks::levels_test, crate::proofs::Checks::levels_none))]
fn levels_ok(lower: f64, upper: f64) -> bool
    ensures { result ≡ Valid.levels_ok lower upper }
{
    float::is_finite(upper) && lower < upper
}

// Whether x is within ±2^20.
#[tactic(auto, unfolding(crate::specs::Valid::bounded))]
fn bounded(x: f64) -> bool
    ensures { result ≡ Valid.bounded x }
{
    -1048576.0 <= x && x <= 1048576.0
}

// Whether two bounds are within ±2^20 and 2^-20 or more apart. A rounded difference does not tell:
// 2^-20 - 2^-200 is rounded to 2^-20. But from 2^-21 up to 2^20 a number less 2^-20 is exact, and so
// is, from -2^20 up to -2^-21, a number and 2^-20 on top; and bounds that are neither are less apart.
#[tactic(auto, using(crate::proofs::Place::side_outside, crate::proofs::Place::side_outside_2))]
fn side_ok(lower: f64, upper: f64) -> bool
    ensures { result ≡ Valid.side_ok lower upper }
{
    if !bounded(lower) || !bounded(upper) {
        return false;
    }
    if upper < 4.76837158203125e-7 {
        return lower <= -4.76837158203125e-7 && lower + 9.5367431640625e-7 <= upper;
    }
    lower <= upper - 9.5367431640625e-7
}

// Whether the box is: its lower x, y, z, then its upper x, y, z.
#[tactic(auto, unfolding(crate::specs::Valid::box_ok))]
fn box_ok(bounds: &[f64; 6]) -> bool
    ensures { result ≡ Valid.box_ok bounds.now }
{
    side_ok(bounds[0], bounds[3]) && side_ok(bounds[1], bounds[4]) && side_ok(bounds[2], bounds[5])
}

// Question 13: whether a sheet is one that is taken.
#[tactic(auto, unfolding(crate::specs::Valid::sheet_ok))]
pub fn sheet_ok(terms: &Terms, levels: &[f64; 2], bounds: &[f64; 6]) -> bool
    ensures { result ≡ Valid.sheet_ok terms.now.coefficients.now terms.now.powers.now levels.now bounds.now }
{
    terms.are_ok() && levels_ok(levels[0], levels[1]) && box_ok(bounds)
}
