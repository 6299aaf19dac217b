//! The answers of a session. The kept commands are those that were answered `Ok`, and the one that was answered
//! `DeviceFault`, if there is one. No later command is kept, since all later answers are `Broken`.

use crate::denials::Denial;

/// The answer of a session to a command.
#[derive(Clone, Copy, Debug, PartialEq, Eq)]
pub struct Reply {
    /// If this is `Ok`, the command is acknowledged: it will not be lost.
    pub answer: Result<(), Denial>,
    /// The number of finished writes and syncs of the device when the session gave the answer.
    pub calls: u64,
}

/// The answers to a list of commands, one for each command.
#[derive(Debug, Drop)]
pub struct Run {
    pub replies: Vec<Reply>,
}
