//! The place of a store.

/// The place at which the journal of a store continues.
#[derive(Clone, Copy, Debug, PartialEq, Eq)]
pub struct Place {
    /// The sequence of the current snapshot, 1..=2^60.
    pub sequence: u64,
    /// The number of records of this sequence, 0..=256.
    pub used: u32,
}
