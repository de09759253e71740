// Where a level cuts the edge between two points of a field: secant steps and halvings, with at most 52 field values.
#![tactic(auto)]

mod bracket;

ghost use Rattle.std.specs.Prelude.{◌≡◌};
ghost use Rattle.float.specs.Point.{less};
ghost use Rattle.solve.specs.Solve as Solve;

use bracket::Bracket;
use field::Terms;
use float::Point;
use lattice::levels::tolerance;

// What an edge ends with: its first node, its second node, or a parameter between them.
#[derive(Clone, Copy, Debug, PartialEq)]
pub enum Cut {
    First,
    Second,
    At(f64),
}

// The cut, none where a residual is not finite, and how many field values were taken for it (also
// where there is none: at most 52 are taken).
#[derive(Clone, Copy, Debug, PartialEq)]
pub struct Solved {
    pub cut: Option<Cut>,
    pub taken: u64,
}

// The greatest of the residuals' magnitudes, the level's and 2^-1022.
fn edge_scale(va: f64, vb: f64, level: f64) -> f64
    ensures { result ≡ Solve.edge_scale va vb level }
{
    let larger = float::max(va.abs(), vb.abs());
    float::max(float::max(larger, level.abs()), f64::MIN_POSITIVE)
}

// The point with the parameter t between a and b.
pub fn point_between(a: Point, b: Point, t: f64) -> Point
    ensures { result ≡ Solve.point_between a b t }
{
    Point {
        x: a.x * (1.0 - t) + b.x * t,
        y: a.y * (1.0 - t) + b.y * t,
        z: a.z * (1.0 - t) + b.z * t,
    }
}

// A segment from a to b in a field, and the level that cuts it.
#[derive(Clone, Copy)]
struct Segment<'a> {
    terms: &'a Terms<'a>,
    a: Point,
    b: Point,
    level: f64,
}

impl<'a> Segment<'a> {
    // The field's value at the parameter t, less the level.
    fn residual(&self, t: f64) -> f64
        ensures { result ≡ Solve.residual self.now.terms.now.coefficients.now self.now.terms.now.powers.now self.now.a self.now.b self.now.level t }
    {
        self.terms.value(point_between(self.a, self.b, t)) - self.level
    }

    // The rounds, from the bracket of the two nodes.
    fn take_rounds(&self, limit: f64, first: Bracket) -> Solved
        ensures { result ≡ Solve.from_round (Solve.residual self.now.terms.now.coefficients.now self.now.terms.now.powers.now self.now.a self.now.b self.now.level) limit first.flo 52 0 first }
    {
        let mut k = first;
        for round in 0..52 {
            let t = k.parameter(round);
            let v = self.residual(t);
            if !float::is_finite(v) {
                return Solved {
                    cut: None,
                    taken: round + 1,
                };
            }
            if v.abs() <= limit {
                return Solved {
                    cut: Some(Cut::At(t)),
                    taken: round + 1,
                };
            }
            k = k.narrowed(first.flo, t, v);
        }
        Solved {
            cut: Some(Cut::At(k.midway())),
            taken: 52,
        }
    }
}

// Where the level cuts the edge from a to b, by the values at these two nodes.
pub fn solve(terms: &Terms, a: Point, b: Point, first: f64, second: f64, level: f64) -> Solved
    ensures { result ≡ Solve.solve (Solve.residual terms.now.coefficients.now terms.now.powers.now a b level) level (less first level) (less second level) }
{
    let va = first - level;
    let vb = second - level;
    if !float::is_finite(va) || !float::is_finite(vb) {
        return Solved {
            cut: None,
            taken: 0,
        };
    }
    if va == 0.0 {
        return Solved {
            cut: Some(Cut::First),
            taken: 0,
        };
    }
    if vb == 0.0 {
        return Solved {
            cut: Some(Cut::Second),
            taken: 0,
        };
    }
    let limit = tolerance(edge_scale(va, vb, level));
    let bracket = Bracket {
        lo: 0.0,
        hi: 1.0,
        flo: va,
        fhi: vb,
    };
    let segment = Segment { terms, a, b, level };
    segment.take_rounds(limit, bracket)
}
