//! Writes a problem as an instance file that other programs read: Li and Lim's format, Solomon's, or a `.vrp`
//! file of CVRPLIB.
//!
//! The entry point is `write_instance`. It writes the problem as it is now, after requests were added and
//! withdrawn. `instance_read` reads the text back.
//!
//! Sources: as for `instance_read`. A problem with time windows is written in Li and Lim's format if its requests
//! are pairs, and in Solomon's if each has one stop. If it has both, it is refused. In these formats stops keep
//! their own numbers, with any gaps between them. A `.vrp` text can't express time windows, services or gaps, so
//! a problem that has them is refused. The fleet is not part of a `.vrp` text.
//!
//! Modules, in reading order:
//! - `faults`: the reasons why a problem is not written
//! - `formats`: the format of a problem's text, and the problems that it can express
//! - `lines`: one line
//! - `stops`: the lines of all stops, in ascending order of number
//! - `write`: the writer
//! - `laws`: a text that is written reads back
//!
//! Proved: `write_instance` writes exactly the bytes of its definition. It refuses a problem exactly if the
//! format can't express it, and otherwise fails only if memory runs out. The text reads back as the problem,
//! except that its next number follows the last stop, and that a problem of kind `Vrp` gets one vehicle per
//! customer.
#![tactic(auto)]

mod faults;
mod formats;
mod laws;
mod lines;
mod stops;
mod write;

pub use faults::WriteFault;
pub use formats::{has_format, text_format};
pub use laws::texts_are_read_back;
pub use write::write_instance;
