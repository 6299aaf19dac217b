//! Published distances, which are in the unit of an instance's text and may have decimals.
ghost use Rattle.std.specs.Prelude.{◌≡◌, ◌<◌, ◌≤◌, length, IfSome, MatchOption};
ghost use Rattle.std.specs.List.{position_or_len};
ghost use Rattle.instance_read.specs.Distances.{decimal_distance, decimal_unit, fraction_in, has_minus, is_point, published_distance, scaled_sum};
ghost use Rattle.instance_read.specs.Scales.{times};

use crate::scales::Scale;
use text_lines::{digits_to_u32, number_to_u64};

/// Returns the distance that a word spells, times the scale.
///
/// The word is written like the cost of a solution, or has a point and decimals: at most as many as the scale has
/// zeros. Returns `None` for any other word, and for a product that does not fit a `u64`.
pub fn published_distance(scale: Scale, word: &[u8]) -> Option<u64>
    ensures { result ≡ published_distance scale word.now }
{
    match number_to_u64(word) {
        Some(whole) => scaled_sum(scale, whole, 0),
        None => decimal_distance(scale, word),
    }
}

fn decimal_distance(scale: Scale, word: &[u8]) -> Option<u64>
    ensures { result ≡ decimal_distance scale word.now }
{
    if has_minus(word) {
        return None;
    }
    let point = point_place(word)?;
    let whole = number_to_u64(&word[..point])?;
    let fraction = fraction_in(scale, &word[point + 1..])?;
    scaled_sum(scale, whole, fraction)
}

fn has_minus(word: &[u8]) -> bool
    ensures { result ≡ has_minus word.now }
{
    matches!(word, [b'-', ..])
}

// Returns the place of the first point.
fn point_place(word: &[u8]) -> Option<usize>
    ensures bound { IfSome result (λ point. point < length word.now) }
    ensures place { let place = position_or_len is_point word.now in
        MatchOption result (length word.now ≤ place) (λ point. point ≡ place) }
{
    word.iter().position(|byte| *byte == b'.')
}

// Returns the value of these decimals, in the unit of the scaled distance.
fn fraction_in(scale: Scale, decimals: &[u8]) -> Option<u32>
    ensures { result ≡ fraction_in scale decimals.now }
{
    let unit = decimal_unit(scale, decimals.len())?;
    let digits = digits_to_u32(decimals)?;
    u32::try_from(u64::from(digits) * u64::from(unit)).ok()
}

// Returns the value of the last of this many decimals, in the unit of the scaled distance.
fn decimal_unit(scale: Scale, decimals: usize) -> Option<u32>
    ensures { result ≡ decimal_unit scale decimals }
{
    match scale {
        Scale::One => None,
        Scale::Ten => match decimals {
            1 => Some(1),
            _ => None,
        },
        Scale::Hundred => match decimals {
            1 => Some(10),
            2 => Some(1),
            _ => None,
        },
        Scale::Thousand => match decimals {
            1 => Some(100),
            2 => Some(10),
            3 => Some(1),
            _ => None,
        },
    }
}

// Returns a number times the scale, plus another number.
fn scaled_sum(scale: Scale, whole: u64, more: u32) -> Option<u64>
    ensures { result ≡ scaled_sum scale whole more }
{
    u64::try_from(times(scale, whole) + u128::from(more)).ok()
}

fn times(scale: Scale, number: u64) -> u128
    ensures { result ≡ times scale number }
{
    let number = u128::from(number);
    match scale {
        Scale::One => number,
        Scale::Ten => number * 10,
        Scale::Hundred => number * 100,
        Scale::Thousand => number * 1_000,
    }
}
