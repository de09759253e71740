// A guess at a root, made in `f64`, of which no more is shown than its range; and its test in whole
// numbers, which is exact.
ghost use Rattle.std.specs.Prelude.{◌≡◌, ◌*◌, ◌^◌, ◌≤◌, ◌<◌};
ghost use Rattle.float.specs.Root.{nearest_root};
ghost use Rattle.float.specs.Guess.{if_beside};

// wide / 2^52, from 1 to 4; a 54th bit is cut off.
fn fraction(wide: u64) -> f64
    requires { (2 ^ 52 ≤ wide) × (wide < 2 ^ 54) }
{
    if wide < 0x20_0000_0000_0000 {
        return f64::from_bits(0x3fe0_0000_0000_0000 + wide);
    }
    f64::from_bits(0x3ff0_0000_0000_0000 + wide / 2)
}

// A first guess at the root of x: the polynomial of degree 5 whose greatest relative distance from the
// root on 1..4 is least, 6.4e-5, found by the exchange method, its coefficients rounded to 8 places.
fn first(x: f64) -> f64 {
    let square = x * x;
    let low = 0.34354 + 0.87061227 * x;
    let middle = 0.07726019 * x - 0.28001561;
    let high = 0.00079574 * x - 0.0121293;
    low + square * (middle + square * high)
}

// One of Heron's steps to a root, by the half of its square: (y + x / y) / 2.
fn heron(half: f64, y: f64) -> f64 {
    0.5 * y + half / y
}

// A guess at the root of wide * 2^52. A step takes a relative distance e to about e * e / 2, so two of
// them leave 2.2e-18, far less than f64 rounds. No proof uses these figures: a bad guess costs time.
pub fn guess(wide: u64) -> u64
    requires { (2 ^ 52 ≤ wide) × (wide < 2 ^ 54) }
    ensures { (2 ^ 52 ≤ result) × (result < 2 ^ 53) }
{
    let x = fraction(wide);
    let half = 0.5 * x;
    let y = heron(half, heron(half, first(x)));
    if y.is_nan() {
        return 0x10_0000_0000_0000;
    }
    y.to_bits() % 0x10_0000_0000_0000 + 0x10_0000_0000_0000
}

// Of g and the numbers beside it, the one nearest to the root of wide * 2^52, if one of the three
// is. A number r is the nearest where r * r - r < wide * 2^52 <= r * r + r. The square of g is
// high * 2^52 + low, by the halves of g, and up - down is wide * 2^52 - g * g + g.
pub fn nearest_of_three(g: u64, wide: u64) -> Option<u64>
    requires { (2 ^ 52 ≤ g) × (g < 2 ^ 53) × (wide < 2 ^ 54) }
    ensures { result ≡ if_beside g (nearest_root (wide * 2 ^ 52) 0) }
{
    let a = g / 0x800_0000;
    let b = g % 0x800_0000;
    let c = a * b;
    let high = a * a * 4 + c / 0x100_0000;
    let low = (c % 0x100_0000) * 0x1000_0000 + b * b;
    if wide + 8 < high {
        return None;
    }
    let u = wide + 8 - high;
    if 32 <= u {
        return None;
    }
    let up = u * 0x10_0000_0000_0000 + g;
    let down = low + 0x80_0000_0000_0000;
    if down + g * 4 + 2 < up {
        return None;
    }
    if up + g * 2 <= down + 2 {
        return None;
    }
    // `as`, as in `digits`.
    let above = (down + g * 2 < up) as u64;
    let below = (up <= down) as u64;
    Some(g + above - below)
}
