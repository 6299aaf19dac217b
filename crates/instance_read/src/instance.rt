//! The reader of instance texts in any format.
ghost use Rattle.std.specs.Prelude.{IfErr, IfOk};
ghost use Rattle.instance_read.specs.Faults.{ReportsFirstFault};
ghost use Rattle.instance_read.specs.Readings.{InstanceFault, SpellsInstance};

use crate::faults::ReadFault;
use crate::formats::{Format, Layout};
use crate::lilim::read_lilim_scaled;
use crate::solomon::read_solomon_scaled;
use crate::vrp::read_vrp_scaled;
use plan_types::Problem;
use std::alloc::Global;

/// Reads an instance text in this format and returns the problem that it spells.
///
/// # Errors
///
/// Returns a fault as `read_lilim`, `read_solomon` and `read_vrp` do. With a scale above 1, `Range` also means
/// that a number times the scale leaves the limits.
pub fn read_instance(alloc: Global, format: Format, text: &[u8]) -> Result<Problem, ReadFault>
    ensures value { IfOk result (SpellsInstance format text.now) }
    ensures fault { IfErr result (ReportsFirstFault (InstanceFault format text.now)) }
{
    match format.layout {
        Layout::LiLim => read_lilim_scaled(alloc, format.scale, text),
        Layout::Solomon => read_solomon_scaled(alloc, format.scale, text),
        Layout::Vrp => read_vrp_scaled(alloc, format.scale, text),
    }
}
