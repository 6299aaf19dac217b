//! The laws of served inputs. They follow from the contracts of `serve` and `open` alone.
ghost use Rattle.command_server.specs.Causes.{FaultsAreReported, SpentOnlyAtTheLast};
ghost use Rattle.command_server.specs.Ending.{FailedAnswersEndServings};
ghost use Rattle.command_server.specs.CrashRecovery.{ServedHeadline, ServingsAreRuns};
ghost use Rattle.command_server.specs.AnswerOrder.{AnswersComeAfter};

use recover::recovery_keeps_every_acknowledged_command;
use sector_disk::Sectors;

/// Proves that `no Spent` is answered only if the store's sequence numbers are used up, and `fault device`
/// exactly if a device call has failed.
pub fn fates_have_causes<D: Sectors>()
    ensures spent { SpentOnlyAtTheLast D.Sectors }
    ensures faults { FaultsAreReported D.Sectors }
{}

/// Proves that a crash at any moment of serving, with any choice that the device allows, recovers to the state
/// after a prefix of the kept operations: those executed, and the one during which the device failed, if any.
/// This prefix has every acknowledged operation and at most one more. The kept operations are themselves a
/// prefix of those that the input requests, and they are a run of the session, whether or not serving was cut
/// short. By the time that m calls had finished, the text that was written reports only operations that are
/// acknowledged then. So does the text that was flushed.
pub fn crashed_servings_recover<D: Sectors, E: Sectors>()
    ensures runs { ServingsAreRuns D.Sectors }
    ensures crashed { ServedHeadline D.Sectors E.Sectors }
    ensures reported { AnswersComeAfter D.Sectors }
{
    recovery_keeps_every_acknowledged_command::<D, E>();
}

/// Proves that serving through a `StrictWriter` executes nothing after the answer that ends it. The last act is
/// reported by this answer, and all acts before it by earlier answers, after which serving continued. The rest
/// of the input is not answered.
pub fn nothing_is_done_after_a_refusal<D: Sectors>()
    ensures { FailedAnswersEndServings D.Sectors }
{}
