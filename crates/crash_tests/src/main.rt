//! Tests of crashes over a store in memory: runs crash at each device call, with each choice of what a crash
//! leaves, and then the store is opened. Each printed row counts the results.
//!
//! - `examples`: commands and their states; `tables`: prints a row of numbers
//! - `crashes`: runs that crash; `failures`: runs in which one call fails
//! - `upgrades`: a store of version 1 that is upgraded
//! - `readings`: crash images that are read twice, once by the plain reader of `plain_reader`
//! - `rounds`: stores that are opened, run and crashed again and again
//!
//! `rt ci` runs it and compares its output with `stdout`.
#![tactic(auto)]

mod crashes;
mod examples;
mod failures;
mod plain_reader;
mod readings;
mod rounds;
mod tables;
mod upgrades;

use crate::crashes::print_crashes;
use crate::failures::print_failures;
use crate::readings::print_readings;
use crate::rounds::print_rounds;
use crate::upgrades::print_upgrades;
use std::io;

fn main(rt: HostRuntime) -> io::Result<()> {
    let alloc = rt.alloc();
    print_crashes(&rt, alloc)?;
    print_failures(&rt, alloc)?;
    print_upgrades(&rt, alloc)?;
    print_readings(&rt, alloc)?;
    print_rounds(&rt, alloc)
}
