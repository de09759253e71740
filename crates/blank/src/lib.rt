// Lists whose end is set to 0: words, bytes and numbers, from a place on.
#![tactic(auto)]

ghost use Rattle.std.specs.Prelude.{◌≡◌, ◌≤◌, length};
ghost use Rattle.std.specs.Float.{binary64};
ghost use Rattle.std.specs.Float.Ieee.{of_bits};
ghost use Rattle.blank.specs.Blank.{blank};

pub trait Zero: Copy {
    ghost zero: { Self };

    fn zero() -> Self
        ensures { result ≡ zero };
}

impl Zero for u8 {
    ghost zero = { 0 };

    fn zero() -> u8 {
        0u8
    }
}

impl Zero for u32 {
    ghost zero = { 0 };

    fn zero() -> u32 {
        0u32
    }
}

impl Zero for f64 {
    ghost zero = { of_bits binary64 0 };

    fn zero() -> f64 {
        0.0
    }
}

// The list from a place on becomes 0. (A loop: `fill` would ask of `Zero` one more law, on clones.)
pub fn blank<T: Zero>(list: &mut [T], from: usize)
    requires { from ≤ length list.old }
    ensures { list.new ≡ blank T.zero list.old from }
{
    for k in from..list.len() {
        list[k] = T::zero();
    }
}
