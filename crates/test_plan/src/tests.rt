//! The test modules, in reading order: `builders` (shared by the examples), `problems`, `plans`, `distances`,
//! `schedules`, `audits`, `tables`. `slow` is a plain and slow auditor that runs beside the real one, on the
//! plans of `random_cases`.

mod audits;
mod builders;
mod distances;
mod plans;
mod problems;
mod random_cases;
mod schedules;
mod slow;
mod tables;
