//! Reads and writes of lists and tables by index. A read outside returns the default value, and a write outside
//! does nothing. So no proof has to follow which numbers the search keeps in its lists.
use plan_types::OutOfMemory;
use std::alloc::Global;

/// Returns the item at the index, or the default value if the list is shorter.
#[inline(always)]
pub(crate) fn item<T: Copy + Default + Drop>(items: &[T], index: u32) -> T {
    match items.get(index as usize) {
        Some(item) => *item,
        None => T::default(),
    }
}

/// Sets the item at the index, if the list is that long.
#[inline(always)]
pub(crate) fn put<T: Copy + Drop>(items: &mut [T], index: u32, item: T) {
    if let Some(place) = items.get_mut(index as usize) {
        *place = item;
    }
}

/// Sets all items.
pub(crate) fn put_all<T: Copy + Drop>(items: &mut [T], item: T) {
    for place in items.iter_mut() {
        *place = item;
    }
}

/// Returns `count` numbers, from `first` on.
pub(crate) fn range(alloc: Global, first: u32, count: u32) -> Result<Vec<u32>, OutOfMemory> {
    let mut numbers = Vec::with_capacity(alloc, count as usize)?;
    for index in 0..count {
        numbers.push(first.wrapping_add(index))?;
    }
    Ok(numbers)
}

/// A table whose rows have equal lengths.
#[derive(Drop)]
pub(crate) struct Table<T> {
    items: Vec<T>,
    width: u32,
}

impl<T: Copy + Default + Drop> Table<T> {
    /// Returns a table of default values.
    pub(crate) fn new(alloc: Global, rows: u32, width: u32) -> Result<Table<T>, OutOfMemory> {
        let items = vec![in alloc; T::default(); rows as usize * width as usize]?;
        Ok(Table { items, width })
    }

    // Returns the index of an item. It wraps only beyond the largest table.
    #[inline(always)]
    fn index(&self, row: u32, column: u32) -> u32 {
        row.wrapping_mul(self.width).wrapping_add(column)
    }

    #[inline(always)]
    pub(crate) fn item(&self, row: u32, column: u32) -> T {
        item(&self.items, self.index(row, column))
    }

    #[inline(always)]
    pub(crate) fn put(&mut self, row: u32, column: u32, new: T) {
        let index = self.index(row, column);
        put(&mut self.items, index, new);
    }

    /// Returns the first `count` items of a row.
    pub(crate) fn row(&self, row: u32, count: u32) -> &[T] {
        let start = self.index(row, 0);
        let end = start.saturating_add(count);
        self.items.get(start as usize..end as usize).unwrap_or(&[])
    }

    /// Returns all items, row after row.
    pub(crate) fn items(&self) -> &[T] {
        &self.items
    }

    /// Sets all items of the first `rows` rows.
    pub(crate) fn put_rows(&mut self, rows: u32, new: T) {
        for index in 0..self.index(rows, 0) {
            put(&mut self.items, index, new);
        }
    }
}
