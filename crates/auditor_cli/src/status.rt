//! The exit statuses of the program.

/// Success. For an audit: the solution passes.
pub const DONE: u8 = 0;
/// The solution breaks a rule or is not adopted, requests are left out, or a strict run ended at a refusal.
pub const BROKEN: u8 = 1;
/// A file or a store is refused.
pub const REFUSED: u8 = 2;
/// A file or a store can't be read or written, or is in use, or an answer can't be printed.
pub const FILE: u8 = 3;
/// Out of memory.
pub const OUT_OF_MEMORY: u8 = 4;
/// A usage error: the command line has an error, or requests a subcommand that this program lacks.
pub const USAGE: u8 = 64;
