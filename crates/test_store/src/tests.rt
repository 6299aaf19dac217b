//! The test modules, in reading order:
//! - `builders`: sectors, states as bytes and stores, for all other modules
//! - `devices`, `files`: a device in memory, and one over a file
//! - `codecs`: states and records as bytes
//! - `checkpoints`: stores on a device
//! - `recoveries`: sessions, crashes and recovery
//! - `rounds`: a store that crashes and is opened again and again
//! - `restarts`: rounds with kills, and with openings that fail
//! - `upgrades`: upgrades of stores of version 1

mod builders;
mod checkpoints;
mod codecs;
mod devices;
mod files;
mod recoveries;
mod restarts;
mod rounds;
mod upgrades;
