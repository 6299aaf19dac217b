//! Best-known costs: their syntax, and the comparison of a plan's cost with one.
ghost use Rattle.std.specs.Prelude.{◌≡◌, IfOk, option_map, string_bytes};
ghost use Rattle.instance_read.specs.Formats.{kind_of};
ghost use Rattle.auditor_cli.specs.BestKnown.{best_among, best_in, best_of, comparison_text, has_tab};

use crate::gaps::{gap_text, vehicles_text};
use instance_read::{Format, published_distance};
use plan_types::{Cost, Kind, OutOfMemory};
use std::alloc::Global;
use std::marker::Model;
use text_lines::{Words, digits_to_u32};

/// A best-known cost of an instance: its distance, and its vehicles if they are given.
#[derive(Debug, Drop)]
pub struct BestKnown {
    vehicles: Option<u32>,
    // The distance is at least 1.
    distance: u64,
}

impl Model for BestKnown {
    ghost use Rattle.std.specs.Prelude.{◌≢◌};
    ghost use Rattle.auditor_cli.specs.BestKnown.{BestCost};

    ghost Value = { BestCost };

    ghost view = { λ b. record { vehicles = b.vehicles; distance = b.distance } };

    ghost invariant = { λ b. b.distance ≢ 0 };
}

impl BestKnown {
    /// Reads a best-known cost: `DISTANCE`, or for a problem of kind `LiLim` also `VEHICLES DISTANCE`, with
    /// spaces between and around the words.
    ///
    /// The distance is in the unit of the instance's text, and is multiplied by the scale of the format. It is
    /// written like the cost of a solution, or has at most as many decimals as the scale has zeros. The vehicles
    /// are digits only. Returns `None` for any other text, and if the distance is 0.
    pub fn read(format: Format, text: &[u8]) -> Option<BestKnown>
        ensures { result ≡ best_in format text.now }
    {
        if has_tab(text) {
            return None;
        }
        let mut words = Words::new(text);
        let first = words.next()?;
        let second = words.next();
        match words.next() {
            None => best_among(format, first, second),
            Some(_) => None,
        }
    }

    /// Returns the comparison of a plan's cost with this cost: ` vehicles +1` if the vehicles differ, otherwise
    /// ` gap 1.27`, the gap of the distance in percent.
    pub fn comparison(&self, alloc: Global, cost: Cost) -> Result<String, OutOfMemory>
        ensures { IfOk result (λ text. string_bytes text ≡ comparison_text self.now cost) }
    {
        match self.vehicles {
            Some(vehicles) if u64::from(vehicles) != cost.vehicles => {
                vehicles_text(alloc, cost.vehicles, u64::from(vehicles))
            }
            _ => gap_text(alloc, cost.distance, self.distance),
        }
    }
}

// Returns whether the text has a tab, and so more than one column.
fn has_tab(text: &[u8]) -> bool
    ensures { result ≡ has_tab text.now }
{
    text.contains(&b'\t')
}

fn best_among(format: Format, first: &[u8], second: Option<&[u8]>) -> Option<BestKnown>
    ensures { result ≡ best_among (kind_of format) format.scale first.now
        (option_map (λ w. w.now) second.entry) }
{
    match (format.kind(), second) {
        (_, None) => best_of(None, published_distance(format.scale, first)),
        (Kind::LiLim, Some(distance)) => {
            let vehicles = digits_to_u32(first)?;
            best_of(Some(vehicles), published_distance(format.scale, distance))
        }
        (Kind::Vrp, Some(_)) => None,
    }
}

fn best_of(vehicles: Option<u32>, distance: Option<u64>) -> Option<BestKnown>
    ensures { result ≡ best_of vehicles distance }
{
    match distance {
        None | Some(0) => None,
        Some(distance) => Some(BestKnown { vehicles, distance }),
    }
}
