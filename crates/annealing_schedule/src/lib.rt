//! The twenty stages of annealing: the step at which each stage begins, and its threshold. Each step makes a
//! candidate from the working plan; the threshold says how much longer the candidate may be.
//!
//! The steps are divided into twenty stages of equal length, rounded down. Each stage has a threshold in
//! hundredths of the mean leg of the incumbent, the best plan so far. The mean leg is the distance divided by
//! the number of stops. The thresholds fall from 1.50 to 0.03 mean legs. So annealing explores widely at first
//! and settles at the end.
//!
//! Modules, in reading order:
//! - `stages`: the boundaries and thresholds of the stages, and the stage of a step.
//! - `mean_leg`: a threshold as a distance.
//! - `laws`: laws about the stages, for all steps, without code.
//!
//! Source: this project's own schedule; falling thresholds (Dueck and Scheuer, Threshold Accepting, 1990).
//!
//! Proved: each function computes the definition of its name in `specs/Stages.antt`. Each step lies in exactly
//! the stage that `stage_of` returns, between its boundaries (`stages_hold_their_steps`). The first stage begins
//! with the first step, the last ends after the last one, and no boundary is below the one before it
//! (`stages_cover_all_steps`).
#![tactic(auto)]

mod laws;
mod mean_leg;
mod stages;

pub use laws::{stages_cover_all_steps, stages_hold_their_steps};
pub use mean_leg::mean_leg_share;
pub use stages::{STAGES, boundary, hundredths, stage_of};
