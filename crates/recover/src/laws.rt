//! Laws about crashes and recovery, derived only from the contracts of `run` and `open`.
ghost use Rattle.recover.specs.Headline.{Headline};
ghost use Rattle.recover.specs.Composition.{AppliesAreRuns, RunsConcatenate, RunsCompose, HoldsAfterCrashedOpenings, CrashedLeaveSameImages, RefusedCountAsCrashed, RefusedCanBeRetried};
ghost use Rattle.recover.specs.Links.{LinksCompose};
ghost use Rattle.recover.specs.Reopening.{Reopens, OpensNew};

use command_core::{
    annealings_add_up, commands_keep_invariants, plans_never_cost_more, searches_add_up,
};
use plan_audit::passes_decides_the_verdict;
use sector_disk::Sectors;

/// Proves the headline: after a crash at any moment of a run, with any image that the device allows, recovery
/// returns the state after a prefix of the commands. The prefix has every acknowledged command, and at most one
/// more. The plan passes the auditor, and costs no more than any incumbent since the last change of requests or
/// pins.
pub fn recovery_keeps_every_acknowledged_command<D: Sectors, E: Sectors>()
    ensures { Headline D.Sectors E.Sectors }
{
    commands_keep_invariants();
    plans_never_cost_more();
    passes_decides_the_verdict();
}

/// Proves that `apply` is a run of one command, and that two consecutive runs of a session are one run of the
/// joined lists. At each moment of the two runs a crash leaves what the joined run guarantees, so the headline
/// applies to all commands of a session together.
pub fn runs_compose<D: Sectors>()
    ensures applied { AppliesAreRuns D.Sectors }
    ensures joined { RunsConcatenate D.Sectors }
    ensures moments { RunsCompose D.Sectors }
{}

/// Proves that after a crash of a run any number of openings may crash or be refused. The next opening still
/// returns the state that the headline describes, since each possible image is one that was possible before
/// these openings. If an opening was refused, but not because the device failed, the next one returns what the
/// refused one would have returned without the refusal.
pub fn crashed_openings_can_be_retried<D: Sectors, E: Sectors>()
    ensures over { HoldsAfterCrashedOpenings D.Sectors E.Sectors }
    ensures same { CrashedLeaveSameImages E.Sectors }
    ensures refused { RefusedCountAsCrashed E.Sectors }
    ensures retried { RefusedCanBeRetried E.Sectors }
{
    commands_keep_invariants();
    plans_never_cost_more();
    passes_decides_the_verdict();
}

/// Proves that restarts compose. Consider any list of restarts, each beginning with the state that the previous
/// one returned. The commands that they recover, joined, lead from the first state to the last. From each run
/// every acknowledged command is recovered, and at most one more. Each restart is as the headline guarantees;
/// the devices may differ.
pub fn restarts_compose()
    ensures { LinksCompose }
{
    commands_keep_invariants();
    plans_never_cost_more();
    searches_add_up();
    annealings_add_up();
    passes_decides_the_verdict();
}

/// Proves that a closed session returns the same state when its device is opened again: each image that a crash
/// may leave recovers to it.
pub fn a_closed_session_reopens_with_its_state<D: Sectors>()
    ensures { Reopens D.honest D.seen D.possible }
{}

/// Proves that every crash image of a new store recovers to the state that it was created from, and that the
/// store opens with this state. After `format` this is the empty state.
pub fn a_new_store_opens_with_its_state<D: Sectors>()
    ensures { OpensNew D.honest D.seen D.possible }
{}
