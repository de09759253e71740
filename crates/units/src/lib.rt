// Whether coordinates are whole units: whole numbers of 1/1024 within ±32,768.
#![tactic(auto)]

ghost use Rattle.std.specs.Prelude.{◌≡◌, ◌↔◌, true};
ghost use Rattle.units.specs.Units.{OnUnits, AllOnUnits};

// Whether a value is. Next to 3 * 2^51 the values of f64 are the whole numbers, so that only a whole number comes back from there.
pub fn on_unit(x: f64) -> bool
    ensures { (result ≡ true) ↔ OnUnits x }
{
    if -32.0 <= x {
        if x <= 32.0 {
            let y = x * 1024.0;
            return y + 6755399441055744.0 - 6755399441055744.0 == y;
        }
    }
    false
}

// Whether every value of a list is.
pub fn on_units(points: &[f64]) -> bool
    ensures { (result ≡ true) ↔ AllOnUnits points.now }
{
    points.iter().all(|x| on_unit(*x))
}
