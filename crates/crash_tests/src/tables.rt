//! Tables of numbers.

use std::io;

/// Prints a row: its name and the numbers.
pub(crate) fn print_row<R: Print>(rt: &R, name: u64, numbers: &[u64]) -> io::Result<()> {
    print!(rt; "{name}:")?;
    for number in numbers {
        print!(rt; " {number}")?;
    }
    println!(rt; "")
}

/// Adds one to this column of a row.
pub(crate) fn count(row: &mut [u64], place: usize) {
    if let Some(count) = row.get_mut(place) {
        *count = count.saturating_add(1);
    }
}
