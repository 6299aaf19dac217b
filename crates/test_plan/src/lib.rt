//! Tests of `plan_types`, `nint_dist`, `route_sched`, `slack_tables` and `plan_audit`: worked examples over
//! their public functions with expected values from outside, and calls at the largest sizes.
//!
//! Those crates have no tests of their own, since a crate with tests is proved twice. Each test is short, or one
//! loop over a table of constants, because the time to prove a function grows faster than its length. Private
//! functions have no tests: their contracts cover them. About the tests themselves it is only proved that no step
//! panics.
#![tactic(auto)]

#[cfg(test)]
mod tests;
