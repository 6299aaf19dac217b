//! The test modules, in reading order: `builders` (shared by the examples), `lines`, `instances`, `solomon`,
//! `scales`, `solutions`, `explanations`, `buffers`, `timetables`, `pictures`, `writing`.

mod buffers;
mod builders;
mod explanations;
mod instances;
mod lines;
mod pictures;
mod scales;
mod solomon;
mod solutions;
mod timetables;
mod writing;
