//! The reasons why there is no plan.
use instance_read::ReadFault;
use thiserror::Error;

/// A reason why there is no plan.
#[derive(Clone, Copy, Debug, PartialEq, Eq, Error)]
pub enum SolveFault {
    #[error("the instance is refused: {0}")]
    Refused(ReadFault),
    #[error("out of memory")]
    OutOfMemory,
}
