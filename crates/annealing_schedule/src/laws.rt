//! Laws about the stages, for any number of steps.
ghost use Rattle.annealing_schedule.specs.Stages.{StagesCoverAllSteps, StagesHoldTheirSteps};

/// States that each step from `from` on and below `to` lies in the stage that `stage_of` returns, between its
/// boundaries.
pub fn stages_hold_their_steps()
    ensures { StagesHoldTheirSteps }
{}

/// States that the first stage begins with the first step, each later one begins where the one before it ends,
/// and the last ends after the last step.
pub fn stages_cover_all_steps()
    ensures { StagesCoverAllSteps }
{}
