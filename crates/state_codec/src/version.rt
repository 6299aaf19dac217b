//! The two versions of the store format.

/// The greatest stop number in a store of version 1, and its largest fleet.
pub const MAX_STOP_NUMBER_V1: u32 = 4_000;

/// A version of the store format.
#[derive(Clone, Copy, Debug, PartialEq, Eq)]
pub enum Version {
    One,
    Two,
}
