//! The values that all steps of a search share.

use plan_types::{Pins, Problem};

/// The problem, the pins and the numbers that all steps of a search share.
#[derive(Clone, Copy)]
pub struct SearchContext<'a> {
    pub problem: &'a Problem,
    pub pins: &'a Pins,
    /// The distance by which the working plan may be longer than the plan that a candidate is compared with.
    pub deviation: u32,
    /// The seed of the words of all steps.
    pub seed: u64,
}
