// Square roots, the least and the greatest of floats, and points of space, over `f64`.
// Each contract says what is returned in the logic's account of IEEE 754 (`Rattle.std.specs.Float.Ieee`), by a definition
// of `specs/`.
#![tactic(auto)]

pub mod guess;

ghost use Rattle.std.specs.Prelude.{◌≡◌, ◌+◌, ◌-◌, ◌*◌, ◌^◌, ◌≤◌, ◌<◌, length};
ghost use Rattle.std.specs.Float.{binary64};
ghost use Rattle.float.specs.Digits.{recurrence};
ghost use Rattle.float.specs.Root.{root, root_units, nearest_root};
ghost use Rattle.float.specs.Order.{lesser, greater, within, is_finite};
ghost use Rattle.float.specs.Point.{point_at, difference, dotted, crossed, normed};

use guess::{guess, nearest_of_three};

// The digit recurrence of the square root, a digit a turn. `root` is the root of the digits of the
// radicand taken so far, cut to a whole number, and `rest` is what its square leaves of them. A turn
// brings down the next two bits of the radicand, the top two of `bits`, and after those zeros. The
// next digit is 1 where 4 * root + 1 goes into that. With no digit left, the root is rounded: the
// digit after the last would be 1 exactly where the remainder is more than the root, and then the
// exact root is above the midpoint. It is never at it.
fn digits(left: u64, mut root: u64, mut rest: u64, mut bits: u64) -> u64
    requires { (left ≤ 53) × (root < 2 ^ (53 - left)) × (rest ≤ 2 * root) }
    ensures { result ≡ recurrence left root rest bits }
{
    for _ in 0..left {
        let next = rest * 4 + (bits >> 62);
        let trial = root * 4 + 1;
        // `as`: the proof reads the digit as a term, and the result of `u64::from` as a call's.
        let digit = (trial <= next) as u64;
        root = root * 2 + digit;
        rest = next - trial * digit;
        bits = bits << 2;
    }
    if rest <= root { root } else { root + 1 }
}

// The whole number nearest to the root of wide * 2^52: the guess or a number beside it, where the
// test says so, and else by its digits, of which wide * 2^52 has 53 of base 4.
fn nearest_root(wide: u64) -> u64
    requires { (2 ^ 52 ≤ wide) × (wide ≤ 2 ^ 54 - 2) }
    ensures { (result ≡ nearest_root (wide * 2 ^ 52) 0) × (2 ^ 52 ≤ result) × (result < 2 ^ 53) }
{
    if let Some(r) = nearest_of_three(guess(wide), wide) {
        return r;
    }
    digits(53, 0, 0, wide << 10)
}

// The root of m * 2^(k - 1128), for an m of 53 bits. The exponent is made even by a bit of m.
fn scaled(m: u64, k: u64) -> f64
    requires { (2 ^ 52 ≤ m) × (m < 2 ^ 53) × (k ≤ 2100) }
    ensures { result ≡ root_units binary64 (m * 2 ^ (k + 1020)) }
{
    f64::from_bits((k / 2 + 484) * 0x10_0000_0000_0000 + nearest_root(m << (k % 2)))
}

// The square root: the `f64` nearest the exact root. A zero is returned as it is, the root of a NaN
// or of a number below zero is NaN, and that of infinity is infinity.
pub fn sqrt(x: f64) -> f64
    ensures { result ≡ root binary64 x }
{
    if x.is_nan() {
        return x;
    }
    let b = x.to_bits();
    if b >= 0x8000_0000_0000_0000 {
        if b == 0x8000_0000_0000_0000 {
            return x; // -0
        }
        return 0.0 / 0.0;
    }
    if b == 0 {
        return x;
    }
    if b >= 0x7ff0_0000_0000_0000 {
        return x;
    }
    if b < 0x10_0000_0000_0000 {
        // A subnormal number: its digits are moved up to full width.
        let shift = u64::from(b.leading_zeros() - 11);
        return scaled(b << shift, 54 - shift);
    }
    scaled(
        b % 0x10_0000_0000_0000 + 0x10_0000_0000_0000,
        b / 0x10_0000_0000_0000 + 53,
    )
}

// The lesser of two floats. Where one is NaN it is the other, and where they are equal, as -0.0 and
// 0.0 are, it is the first: Rust's `min` leaves open which of them. `max` is a twin by its one
// comparison, and a function over the comparison would be no shorter than the two.
pub fn min(a: f64, b: f64) -> f64
    ensures { result ≡ lesser a b }
{
    if a.is_nan() {
        return b;
    }
    if b < a { b } else { a }
}

// The greater of two floats. Where one is NaN it is the other, and where they are equal, as -0.0 and
// 0.0 are, it is the first.
pub fn max(a: f64, b: f64) -> f64
    ensures { result ≡ greater a b }
{
    if a.is_nan() {
        return b;
    }
    if a < b { b } else { a }
}

// `a`, or the bound that it is beyond. A NaN stays NaN. Rust's `clamp` panics unless lo <= hi; this
// one is `lo` for an `a` below `lo`, and else `hi` for an `a` above `hi`, at any bounds.
pub fn clamp(a: f64, lo: f64, hi: f64) -> f64
    ensures { result ≡ within a lo hi }
{
    if a < lo {
        return lo;
    }
    if hi < a { hi } else { a }
}

// Whether x is neither an infinity nor NaN. (By the definition of `specs/Order.antt`, which the callers'
// proofs use: std's method is by another.)
pub fn is_finite(x: f64) -> bool
    ensures { result ≡ is_finite x }
{
    x.is_finite()
}

// A point or a vector of space.
#[derive(Clone, Copy, Debug, PartialEq)]
pub struct Point {
    pub x: f64,
    pub y: f64,
    pub z: f64,
}

// Point i of a list, three coordinates each.
pub fn point_at(points: &[f64], i: usize) -> Point
    requires { i * 3 + 2 < length points.now }
    ensures { result ≡ point_at points.now i }
{
    Point {
        x: points[i * 3],
        y: points[i * 3 + 1],
        z: points[i * 3 + 2],
    }
}

impl Point {
    // self - other, coordinate by coordinate.
    pub fn sub(self, other: Point) -> Point
        ensures { result ≡ difference self other }
    {
        Point {
            x: self.x - other.x,
            y: self.y - other.y,
            z: self.z - other.z,
        }
    }

    // The dot product, summed from the left.
    pub fn dot(self, other: Point) -> f64
        ensures { result ≡ dotted self other }
    {
        (self.x * other.x + self.y * other.y) + self.z * other.z
    }

    // The cross product.
    pub fn cross(self, other: Point) -> Point
        ensures { result ≡ crossed self other }
    {
        Point {
            x: self.y * other.z - self.z * other.y,
            y: self.z * other.x - self.x * other.z,
            z: self.x * other.y - self.y * other.x,
        }
    }

    // The length: the root of the dot product with itself.
    pub fn norm(self) -> f64
        ensures { result ≡ normed self }
    {
        sqrt(self.dot(self))
    }
}
