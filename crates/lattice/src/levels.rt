// Tolerances, and values near a level set onto it.
ghost use Rattle.std.specs.Prelude.{◌≡◌};
ghost use Rattle.lattice.specs.Values as Values;

// The greatest of the values' magnitudes and 2^-1022.
fn largest(values: &[f64]) -> f64
    ensures { result ≡ Values.largest Values.least_normal values.now }
{
    let mut s = f64::MIN_POSITIVE;
    for v in values {
        s = float::max(s, v.abs());
    }
    s
}

// The greater of s and the magnitude of a level, if that is finite.
#[tactic(auto, unfolding(crate::specs::Values::with_level))]
fn with_level(s: f64, level: f64) -> f64
    ensures { result ≡ Values.with_level s level }
{
    if float::is_finite(level) {
        float::max(s, level.abs())
    } else {
        s
    }
}

// How near is near, by the scale of what is compared: 2^-46 of it.
pub fn tolerance(scale: f64) -> f64
    ensures { result ≡ Values.tolerance scale }
{
    64.0 * f64::EPSILON * scale
}

// Whether a value is within t of a finite level.
fn near(t: f64, level: f64, v: f64) -> bool
    ensures { result ≡ Values.near_level? t level v }
{
    (v - level).abs() <= t && float::is_finite(level)
}

// A value near a level is set onto it.
#[tactic(auto, unfolding(crate::specs::Values::onto))]
fn onto(t: f64, level: f64, v: f64) -> f64
    ensures { result ≡ Values.onto t level v }
{
    if near(t, level, v) { level } else { v }
}

// First onto the lower level, then onto the upper one.
#[tactic(auto, unfolding(crate::specs::Values::onto))]
fn onto_both(t: f64, lower: f64, upper: f64, v: f64) -> f64
    ensures { result ≡ Values.onto_both t lower upper v }
{
    onto(t, upper, onto(t, lower, v))
}

// All values, those near a level set onto it.
pub fn set_onto_levels(values: &mut [f64], lower: f64, upper: f64)
    ensures { values.new ≡ Values.onto_levels lower upper values.old }
{
    let scale = with_level(with_level(largest(values), lower), upper);
    let t = tolerance(scale);
    for v in values.iter_mut() {
        *v = onto_both(t, lower, upper, *v);
    }
}
