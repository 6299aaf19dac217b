//! The moves of the local search.
pub(crate) mod relocate;
pub(crate) mod swap;
pub(crate) mod swap_star;
pub(crate) mod two_opt;
