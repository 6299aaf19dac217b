//! The difference between a plan's cost and the best-known one, as text.
ghost use Rattle.std.specs.Prelude.{◌≡◌, ◌≢◌, IfOk, string_bytes};
ghost use Rattle.std.specs.List.{list_any};
ghost use Rattle.auditor_cli.specs.Gaps.{gap_text, hundredths, is_rounded_to, percent_text, places, places_text, shorter_text, vehicles_text};

use plan_types::OutOfMemory;
use std::alloc::Global;

/// Powers of ten to which a published distance may be rounded, in the instance's unit of distance.
static PLACES: [u64; 9] = [
    10,
    100,
    1_000,
    10_000,
    100_000,
    1_000_000,
    10_000_000,
    100_000_000,
    1_000_000_000,
];

/// Returns ` gap ` and the percentage by which a distance is longer than the best-known one, with two decimals.
/// The percentage is negative if the distance is shorter.
pub(crate) fn gap_text(alloc: Global, distance: u64, best: u64) -> Result<String, OutOfMemory>
    requires { best ≢ 0 }
    ensures { IfOk result (λ text. string_bytes text ≡ gap_text distance best) }
{
    if distance < best {
        shorter_text(alloc, best - distance, best)
    } else {
        let percent = percent_text(alloc, hundredths(distance - best, best))?;
        format!(in alloc; " gap {percent}")
    }
}

// Returns the text for a distance that is shorter than the best-known one by this difference.
fn shorter_text(alloc: Global, difference: u64, best: u64) -> Result<String, OutOfMemory>
    requires { best ≢ 0 }
    ensures { IfOk result (λ text. string_bytes text ≡ shorter_text difference best) }
{
    let hundredths = hundredths(difference, best);
    if hundredths == 0 && is_rounded_away(difference, best) {
        return format!(in alloc; " gap 0.00");
    }
    let percent = percent_text(alloc, hundredths)?;
    format!(in alloc; " gap -{percent}")
}

// Returns whether a distance that is shorter by this difference, rounded to a multiple of one of `PLACES`, is the
// best-known one. The best-known distance must itself be such a multiple, since a distance that was published
// with fewer digits ends in zeros.
fn is_rounded_away(difference: u64, best: u64) -> bool
    ensures { result ≡ list_any (is_rounded_to difference best) places }
{
    PLACES
        .iter()
        .any(|place| is_rounded_to(difference, best, *place))
}

fn is_rounded_to(difference: u64, best: u64, place: u64) -> bool
    requires { place ≢ 0 }
    ensures { result ≡ is_rounded_to difference best place }
{
    best % place == 0 && 2 * u128::from(difference) <= u128::from(place)
}

// Returns the difference in hundredths of a percent of the best-known distance, rounded to the nearest one,
// halves upward.
fn hundredths(difference: u64, best: u64) -> u128
    requires { best ≢ 0 }
    ensures { result ≡ hundredths difference best }
{
    let best = u128::from(best);
    (20_000 * u128::from(difference) + best) / (2 * best)
}

// Returns a number of hundredths as a decimal with two places.
fn percent_text(alloc: Global, hundredths: u128) -> Result<String, OutOfMemory>
    ensures { IfOk result (λ text. string_bytes text ≡ percent_text hundredths) }
{
    let whole = hundredths / 100;
    let places = places_text(alloc, hundredths % 100)?;
    format!(in alloc; "{whole}{places}")
}

fn places_text(alloc: Global, hundredths: u128) -> Result<String, OutOfMemory>
    ensures { IfOk result (λ text. string_bytes text ≡ places_text hundredths) }
{
    let tenths = hundredths / 10;
    let last = hundredths % 10;
    format!(in alloc; ".{tenths}{last}")
}

/// Returns ` vehicles ` and the difference between the vehicles of a plan and those of the best-known cost, with
/// its sign.
pub(crate) fn vehicles_text(alloc: Global, vehicles: u64, best: u64) -> Result<String, OutOfMemory>
    ensures { IfOk result (λ text. string_bytes text ≡ vehicles_text vehicles best) }
{
    if vehicles < best {
        let fewer = best - vehicles;
        format!(in alloc; " vehicles -{fewer}")
    } else {
        let more = vehicles - best;
        format!(in alloc; " vehicles +{more}")
    }
}
