//! Tests of `text_lines`, `instance_read`, `instance_text`, `sol_text`, `text_buffer`, `plan_explain`,
//! `plan_timetable` and `plan_picture`: worked examples for their public functions. These crates have no tests
//! of their own. `tests/texts.py` compares most of the printed texts, since tests with such long texts are slow
//! to prove.
//!
//! The expected answers were worked out by hand. Faults are checked with their line numbers. Some inputs have
//! 40,000 stops, the most that a problem may have. About the tests themselves it is only proved that they do not
//! panic, except at an assertion.
#![tactic(auto)]

#[cfg(test)]
mod tests;
