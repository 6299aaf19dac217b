//! Order crossover (Oliver, Smith and Holland 1987): a part of the first parent's tour, and the other customers in
//! the order of the second.
use crate::cells::{item, put, put_all};
use crate::chance::Chance;
use plan_types::OutOfMemory;
use std::alloc::Global;

/// The customers that a child has already.
#[derive(Drop)]
pub(crate) struct Crossover {
    taken: Vec<bool>,
    size: u32,
}

impl Crossover {
    /// Returns a crossover of tours of that many customers.
    pub(crate) fn new(alloc: Global, size: u32) -> Result<Crossover, OutOfMemory> {
        let nodes = (size as usize).saturating_add(1);
        let taken = vec![in alloc; false; nodes]?;
        Ok(Crossover { taken, size })
    }

    /// Makes the child's tour of the parents' tours.
    pub(crate) fn cross(
        &mut self,
        child: &mut [u32],
        first: &[u32],
        second: &[u32],
        chance: &mut Chance,
    ) {
        let start = chance.below(self.size);
        let offset = chance.below(self.size.saturating_sub(1));
        let count = offset.saturating_add(2);
        self.copy_part(child, first, start, count);
        let end = self.wrapped(start.saturating_add(count));
        self.fill_up(child, second, end);
    }

    // Copies this many customers of the first parent, from `start` on.
    fn copy_part(&mut self, child: &mut [u32], first: &[u32], start: u32, count: u32) {
        put_all(&mut self.taken, false);
        for step in 0..count {
            let place = self.wrapped(start.saturating_add(step));
            let customer = item(first, place);
            put(child, place, customer);
            put(&mut self.taken, customer, true);
        }
    }

    // Appends the customers that are missing, from the place `end` on.
    fn fill_up(&mut self, child: &mut [u32], second: &[u32], end: u32) {
        let mut free = end;
        for step in 0..self.size {
            let customer = item(second, self.wrapped(end.saturating_add(step)));
            if !item(&self.taken, customer) {
                put(child, free, customer);
                free = self.wrapped(free.saturating_add(1));
            }
        }
    }

    // Returns the place, counted around the tour.
    fn wrapped(&self, place: u32) -> u32 {
        if place < self.size {
            place
        } else {
            place - self.size
        }
    }
}
