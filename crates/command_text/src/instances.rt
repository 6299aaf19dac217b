//! The text of an instance, which follows a `load` command.
ghost use Rattle.instance_read.specs.Readings.{IsUnlessOutOfMemory};
ghost use Rattle.command_text.specs.Readings.{IsReading, Reading};

use instance_read::{Format, ReadFault};
use plan_types::Problem;
use std::alloc::Global;

/// Reads the text of an instance in this format. Returns the problem, or the first fault of the text, or out of
/// memory.
pub fn read_instance(alloc: Global, format: Format, text: &[u8]) -> Result<Problem, ReadFault>
    ensures { (reading : Reading) → IsReading reading
        → IsUnlessOutOfMemory result (reading.instance format text.now) }
{
    instance_read::read_instance(alloc, format, text)
}
