//! Tables indexed by number, in which some numbers have no entry.
ghost use Rattle.std.specs.Prelude.{◌≡◌, None, slice_index_or};

/// Returns the entry for this number, or `None` if the table has none or is too short.
pub fn entry_of<T: Copy>(table: &[Option<T>], number: u32) -> Option<T>
    ensures { result ≡ slice_index_or table.now number None }
{
    table.get(number as usize).copied().flatten()
}
