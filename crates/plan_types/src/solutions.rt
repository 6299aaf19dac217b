//! Solutions as their authors print them.
use crate::plans::Routes;

/// A solution of a routing problem, by any author.
#[derive(Debug, Drop)]
pub struct Solution {
    /// The customers of each route line, in order.
    pub routes: Routes,
    /// The printed distance.
    pub cost: u64,
}
