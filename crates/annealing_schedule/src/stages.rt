//! The boundaries and thresholds of the stages, and the stage of a step.
ghost use Rattle.std.specs.Prelude.{◌≡◌, ◌<◌, ◌≤◌, ◌^◌};
ghost use Rattle.annealing_schedule.specs.Stages.{boundary, hundredths_of, stage_of};

/// The number of stages.
pub const STAGES: u32 = 20;

const HUNDREDTHS: [u32; 20] = [
    150, 122, 99, 81, 66, 54, 44, 35, 29, 24, 19, 16, 13, 10, 8, 7, 6, 5, 4, 3,
];

/// Returns how much longer than the working plan a candidate may be in a stage, in hundredths of the incumbent's
/// mean leg. Stages count from 0.
pub fn hundredths(stage: u32) -> u32
    requires { stage < 20 }
    ensures { result ≡ hundredths_of stage }
{
    HUNDREDTHS[stage as usize]
}

/// Returns the number of the step with which a stage begins, when all stages together have the steps from `from`
/// on and below `to`. Stages count from 0. For stage 20 the result is `to`, at which stage 19, the last one,
/// ends.
pub fn boundary(from: u64, to: u64, stage: u32) -> u64
    requires steps { from ≤ to }
    requires stage { stage ≤ 20 }
    ensures value { result ≡ boundary from to stage }
    ensures within { result ≤ to }
{
    from + (u128::from(to - from) * u128::from(stage) / u128::from(STAGES)) as u64
}

/// Returns the stage of a step, when all stages together have the steps from `from` on and below `to`. Stages
/// count from 0. Returns `None` if the step is not one of these.
pub fn stage_of(from: u64, to: u64, step: u64) -> Option<u32>
    requires { from ≤ to }
    ensures { result ≡ stage_of from to step }
{
    if step < from {
        return None;
    }
    let mut stage = 0;
    while stage < STAGES {
        if step < boundary(from, to, stage + 1) {
            return Some(stage);
        }
        stage += 1;
    }
    None
}
