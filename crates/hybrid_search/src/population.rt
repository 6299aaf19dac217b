//! The population: feasible individuals, and those that exceed the capacity.
use crate::chance::Chance;
use crate::individual::Individual;
use crate::subpopulation::{Member, Subpopulation};
use crate::units::Price;
use plan_types::OutOfMemory;
use std::alloc::Global;

/// The individuals from which parents are selected.
#[derive(Drop)]
pub(crate) struct Population {
    feasible: Subpopulation,
    infeasible: Subpopulation,
}

impl Population {
    /// Returns a population without individuals.
    pub(crate) fn new(alloc: Global) -> Population {
        Population {
            feasible: Subpopulation::new(alloc),
            infeasible: Subpopulation::new(alloc),
        }
    }

    /// Adds an individual. If there are too many of its kind then, only the best survive.
    pub(crate) fn add(
        &mut self,
        alloc: Global,
        individual: Individual,
        rate: Price,
    ) -> Result<(), OutOfMemory> {
        if individual.is_feasible() {
            self.feasible.add(alloc, individual, rate)
        } else {
            self.infeasible.add(alloc, individual, rate)
        }
    }

    /// Sorts the infeasible individuals again, after a change of the penalty.
    pub(crate) fn reprice(&mut self, rate: Price) {
        self.infeasible.reprice(rate);
    }

    /// Computes the fitness of all individuals.
    pub(crate) fn rank(&mut self) {
        self.feasible.rank();
        self.infeasible.rank();
    }

    /// Selects the fitter of two random individuals. There is none if the population is empty.
    pub(crate) fn select(&self, chance: &mut Chance) -> Option<&Individual> {
        let one = self.draw(chance)?;
        let two = self.draw(chance)?;
        if one.fitness < two.fitness {
            Some(&one.individual)
        } else {
            Some(&two.individual)
        }
    }

    fn draw(&self, chance: &mut Chance) -> Option<&Member> {
        let feasible = self.feasible.len();
        let all = feasible.saturating_add(self.infeasible.len());
        let index = chance.below(u32::try_from(all).unwrap_or(0)) as usize;
        if index < feasible {
            self.feasible.member(index)
        } else {
            self.infeasible.member(index - feasible)
        }
    }
}
