//! Tests: worked examples for the public functions of `move_ops`, `seeded_search`, `anneal_search`,
//! `annealing_schedule`, `fleet_reduction`, `hybrid_search` and `command_core`, which have no tests of their own.
//!
//! They check the random words of the first and of late steps against RFC 8439 and another program, and the
//! choices and plans that follow from them. They check each move, with a resulting plan and without one,
//! refusals that no command of the program meets, and moves and commands at the largest size.
//! `tests/program.py` checks states after commands, and the other refusals, with the built program.
//!
//! Proved: only that nothing panics.
#![tactic(auto)]

#[cfg(test)]
mod tests;
