//! The laws about cutting and answering an input, each for every input, and the existence of a `Reading`.
ghost use Rattle.std.specs.Prelude.{◌≡◌, []};
ghost use Rattle.command_text.specs.Cutting.{pieces_of};
ghost use Rattle.command_text.specs.Laws.{PiecesEnd, PiecesFollow, ReachedLinesMayBeCut, ReadingsAgree, SomeReadingExists, StagedLinesMayBeCut, StagesMayBeCut, StatesFollow};

use command_core::searches_add_up;
use instance_read::every_text_has_one_reading;
use vehicle_assignment::assignment_is_unique;

/// Proves that an input is cut into lines, each with the bytes that it announces.
pub fn pieces_follow()
    ensures none { pieces_of [] ≡ [] }
    ensures ended { PiecesFollow }
    ensures last { PiecesEnd }
{}

/// Proves that the session ends in the state after the operations that it has executed.
pub fn states_follow()
    ensures { StatesFollow }
{}

/// Proves that `anneal FROM TO`, cut off after any of its operations and repeated, ends in the same state as
/// without the interruption.
pub fn stages_may_be_cut()
    ensures commands { StagesMayBeCut }
    ensures lines { StagedLinesMayBeCut }
{}

/// Proves that `reach N`, cut off after any of its operations and repeated, ends in the same state as without
/// the interruption.
pub fn reaches_may_be_cut()
    ensures { ReachedLinesMayBeCut }
{
    searches_add_up();
}

/// Proves that exactly one `Reading` exists, so a guarantee for every reading holds for that one. Each text of
/// an instance, in any format, has one problem or one first fault. Each text of a solution, for a problem and
/// its pins, has one plan or one reason why there is none.
pub fn texts_have_a_reading()
    ensures some { SomeReadingExists }
    ensures one { ReadingsAgree }
{
    every_text_has_one_reading();
    assignment_is_unique();
}
