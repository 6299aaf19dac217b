//! Tests of `sector_disk`, `file_disk`, `state_codec`, `checkpoint` and `recover`: worked examples over their
//! public functions, with bytes, counts and faults that are written by hand. These crates have no tests of their
//! own.
//!
//! About the tests themselves it is only proved that no step panics and no `requires` is broken.
#![tactic(auto)]

#[cfg(test)]
mod tests;
