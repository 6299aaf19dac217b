//! The two forms of a timetable.

/// The layout of a timetable.
#[derive(Clone, Copy, Debug, PartialEq, Eq)]
pub enum Form {
    /// Columns under headings, for people.
    Columns,
    /// Fields with a tab between them and no headings, for programs. The first field says what a line is about.
    Tabs,
}
