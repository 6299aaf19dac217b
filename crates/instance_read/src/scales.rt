//! The scale of an instance text: the factor by which its coordinates, time windows and service times are
//! multiplied as they are read. Distances are whole numbers, so a scale of 1000 rounds them to a thousandth of
//! the text's unit.
ghost use Rattle.std.specs.Prelude.{◌≡◌, ◌≤◌, ◌<◌, ◌^◌, FitsSigned};
ghost use Rattle.std.specs.Int.{w32};
ghost use Rattle.instance_read.specs.Scales.{times, times_ℤ, unscaled_limit};

/// The scale of an instance text: 1, 10, 100 or 1000. Each of them divides all limits.
#[derive(Clone, Copy, Debug, PartialEq, Eq)]
pub enum Scale {
    One,
    Ten,
    Hundred,
    Thousand,
}

impl Scale {
    /// Returns the greatest number whose product with the scale is at most `most`.
    pub(crate) fn unscaled_limit(self, most: u32) -> u32
        ensures is { result ≡ unscaled_limit self most }
        ensures bound { result ≤ most }
    {
        match self {
            Scale::One => most,
            Scale::Ten => most / 10,
            Scale::Hundred => most / 100,
            Scale::Thousand => most / 1_000,
        }
    }

    /// Returns the number times the scale.
    pub(crate) fn times(self, number: u32) -> u32
        requires { times self number < 2 ^ 32 }
        ensures { result ≡ times self number }
    {
        match self {
            Scale::One => number,
            Scale::Ten => number * 10,
            Scale::Hundred => number * 100,
            Scale::Thousand => number * 1_000,
        }
    }

    /// Returns the number times the scale.
    pub(crate) fn times_signed(self, number: i32) -> i32
        requires { FitsSigned w32 (times_ℤ self number) }
        ensures { result ≡ times_ℤ self number }
    {
        match self {
            Scale::One => number,
            Scale::Ten => number * 10,
            Scale::Hundred => number * 100,
            Scale::Thousand => number * 1_000,
        }
    }
}
