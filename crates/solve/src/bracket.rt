// An interval of parameters whose ends have residuals of opposite sign: the parameter that a round tries, and the
// half that it leaves.
ghost use Rattle.std.specs.Prelude.{◌≡◌};
ghost use Rattle.solve.specs.Solve as Solve;

// The parameters at its two ends, and the residuals there.
#[derive(Clone, Copy, Debug, PartialEq)]
pub struct Bracket {
    pub lo: f64,
    pub hi: f64,
    pub flo: f64,
    pub fhi: f64,
}

impl Bracket {
    fn secant(self) -> f64
        ensures { result ≡ Solve.secant self }
    {
        self.lo - self.flo * (self.hi - self.lo) / (self.fhi - self.flo)
    }

    pub fn midway(self) -> f64
        ensures { result ≡ Solve.midway self }
    {
        (self.lo + self.hi) * 0.5
    }

    // The parameter that a round tries.
    pub fn parameter(self, round: u64) -> f64
        ensures { result ≡ Solve.parameter round self }
    {
        if round >= 12 || round % 4 == 3 {
            return self.midway();
        }
        let s = self.secant();
        if !float::is_finite(s) || s <= self.lo || s >= self.hi {
            return self.midway();
        }
        s
    }

    // The half that a residual v at t leaves, where va is the first node's.
    pub fn narrowed(self, va: f64, t: f64, v: f64) -> Bracket
        ensures { result ≡ Solve.narrowed self va t v }
    {
        if v.signum() == va.signum() {
            Bracket {
                lo: t,
                flo: v,
                ..self
            }
        } else {
            Bracket {
                hi: t,
                fhi: v,
                ..self
            }
        }
    }
}
