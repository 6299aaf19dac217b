//! Reads instance files: Li and Lim's pickup and delivery instances, Solomon's instances of vehicle routing with
//! time windows, and the `.vrp` files of CVRPLIB.
//!
//! The entry points are `read_lilim`, `read_solomon`, `read_vrp`, and `read_instance` for a text in any `Format`.
//! Each returns the `Problem` that a text spells, or the first fault of the text. A text spells a problem if it
//! has no fault and its lines describe that problem. `evidence_of` returns the details of a fault that its line
//! shows, such as the field and its limits; `plan_explain` puts them into words. `split_key` splits a line of a
//! `.vrp` file into key and value.
//!
//! Sources: Li and Lim's benchmark instances for PDPTW; those of Solomon, and of Gehring and Homberger, for
//! VRPTW; the keys and sections of TSPLIB95, as CVRPLIB's instances use them (TYPE CVRP, EDGE_WEIGHT_TYPE
//! EUC_2D). The faults, their order and the limits (`plan_types::limits`) are this project's own.
//!
//! Each line is read once, in order, and reading ends at the first line with a fault. Checks of the whole text
//! (that tasks form pairs, that no key is missing) follow after the last line.
//!
//! Faults are ordered by class, line and kind, and the first one is reported. Faults of single lines come
//! before faults of the whole text, so a number that can't be read in the last line comes before a pair that
//! does not match in the first line.
//!
//! Modules, in reading order:
//! - `faults`: the reasons why a text is refused
//! - `rows`: the lines that are read, with their numbers
//! - `scales`: the factor by which the numbers of a text are multiplied
//! - `field_limits`: the limits of the numbers in a line
//! - `fields`: the numbers of a line, within limits
//! - `tasks`: the header and the tasks of a Li-Lim text; a customer in Solomon's format is read as a task, too
//! - `entries`, `pairs`: tables by number, and the pairs that tasks form
//! - `put`: adding a request to a problem
//! - `lilim`: the reader of Li-Lim texts
//! - `singles`: the problem in which each customer is a request
//! - `solomon`: the reader of Solomon's texts
//! - `vrp_lines`: the keys and sections of a `.vrp` text
//! - `vrp_fields`: the values of keys, and the lines of sections
//! - `vrp_draft`: the data from the lines read so far
//! - `vrp_problem`: the problem that the lines spell
//! - `vrp`: the reader of `.vrp` texts
//! - `formats`: the formats, and the words that name them
//! - `instance`: the reader of texts in any format
//! - `distances`: published distances, which may have decimals
//! - `number_evidence`, `lilim_evidence`, `solomon_evidence`, `vrp_evidence`, `evidence`: the details of a fault
//!   that its line shows
//! - `laws`: what the lines of a `.vrp` text are, that every text is read, what a scale changes, and what evidence
//!   shows
//!
//! Proved: each reader returns exactly the problem that the text spells, or else the first fault by class, line
//! and kind, unless memory runs out. Every text spells one problem or has one first fault, in any format. With a
//! scale it spells the problem of scale 1 with its coordinates, time windows and service times times the scale.
//! The laws state the format of `.vrp` lines and sections in other words, and that the evidence for a bad number is
//! the first such word of the line.
#![tactic(auto)]

mod distances;
mod entries;
mod evidence;
mod faults;
mod field_limits;
mod fields;
mod formats;
mod instance;
mod laws;
mod lilim;
mod lilim_evidence;
mod number_evidence;
mod pairs;
mod put;
mod rows;
mod scales;
mod singles;
mod solomon;
mod solomon_evidence;
mod tasks;
mod vrp;
mod vrp_draft;
mod vrp_evidence;
mod vrp_fields;
mod vrp_lines;
mod vrp_problem;

pub use distances::published_distance;
pub use evidence::{Evidence, Excerpt, Field, SolomonLine, evidence_of};
pub use faults::{ReadFault, ReadFaultKind};
pub use field_limits::Limits;
pub use fields::has_no_number;
pub use formats::{Format, Layout};
pub use instance::read_instance;
pub use laws::{
    depots_are_two_words, eof_is_the_end, every_text_has_one_reading, evidence_shows_the_word,
    key_lines_follow_grammar, other_lines_stay_outside, scale_multiplies_the_problem,
    sections_have_a_line_for_each_node,
};
pub use lilim::read_lilim;
pub use scales::Scale;
pub use solomon::read_solomon;
pub use vrp::read_vrp;
pub use vrp_lines::{Key, split_key};
