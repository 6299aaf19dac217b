//! Laws about crashes during `run`, which follow from the contracts of `run` and of `open`, and about the `ok`
//! of other subcommands.
ghost use Rattle.planner_cli.specs.OkLaws.{OkFollowsCommand, OkFollowsFormat};
ghost use Rattle.planner_cli.specs.RunRecovery.{EveryReadingHasAnInput, ForTheReading, RunRecovers, RunKeepsAnswers, RunsAreLinked, OpenedRunRecovers, OpenedRunKeepsAnswers};
ghost use Rattle.planner_cli.specs.StrictRun.{StrictRunsEnd};

use command_server::{crashed_servings_recover, nothing_is_done_after_a_refusal};
use command_text::texts_have_a_reading;
use recover::recovery_keeps_every_acknowledged_command;
use sector_disk::Sectors;

/// Proves the recovery of `run`. Let a run crash at any moment, whatever the device keeps. Opening the device
/// then recovers the state after a prefix of the commands that the run kept, with every acknowledged command and
/// at most one more.
///
/// A command counts as acknowledged as soon as its answer is written to the output, so every `ok` or `at` that
/// was flushed is covered. For crashes after the opening this holds whatever crash images were possible before,
/// for example after a kill within a commit. For crashes within the opening it holds if every crash image from
/// before recovers to the state that is opened.
///
/// The laws refer to the one function that defines the contents of each text (`ForTheReading`). Whatever the
/// reads of an input returned, there is an input to which the laws apply.
pub fn crashed_runs_recover<D: Sectors, E: Sectors>()
    ensures following { ForTheReading (OpenedRunRecovers D.Sectors E.Sectors) }
    ensures whole { ForTheReading (RunRecovers D.Sectors E.Sectors) }
    ensures reported { ForTheReading (RunKeepsAnswers D.Sectors E.Sectors) }
    ensures printed_after_opening { ForTheReading (OpenedRunKeepsAnswers D.Sectors E.Sectors) }
    ensures inputs { EveryReadingHasAnInput }
{
    texts_have_a_reading();
    recovery_keeps_every_acknowledged_command::<D, E>();
    crashed_servings_recover::<D, E>();
}

/// Proves that a crashed run and the next opening form a link. `restarts_compose` of `recover` joins any list of
/// such links.
pub fn crashed_runs_are_linked<D: Sectors, E: Sectors>()
    ensures { ForTheReading (RunsAreLinked D.Sectors E.Sectors) }
{
    crashed_runs_recover::<D, E>();
}

/// Proves that `ok` is durable. After a crash at any moment when at least one byte of `ok` was written, the
/// device holds the store that `format` or `upgrade` made, or the state after the command of `load` or `adopt`.
/// Each byte that is flushed was written before, so the law also covers flushed bytes.
pub fn printed_ok_is_durable<D: Sectors>()
    ensures made { OkFollowsFormat D.Sectors }
    ensures done { OkFollowsCommand D.Sectors }
{}

/// Proves that a strict run that ends at an answer, while its output has not failed, has done nothing after
/// this answer.
pub fn strict_runs_end_at_an_answer<D: Sectors>()
    ensures { StrictRunsEnd D.Sectors }
{
    nothing_is_done_after_a_refusal::<D>();
}
