//! The hybrid genetic search: each iteration makes an individual, educates it, and adds it to the population.
ghost use Rattle.std.specs.Prelude.{IfOk};
ghost use Rattle.hybrid_search.specs.Bred.{IsBred};

use crate::certificate::better;
use crate::chance::Chance;
use crate::crossover::Crossover;
use crate::individual::Individual;
use crate::local_search::LocalSearch;
use crate::network::Network;
use crate::penalties::Penalties;
use crate::population::Population;
use crate::problems::{network_of, plan_of};
use crate::split::Split;
use crate::units::Price;
use plan_types::{OutOfMemory, Plan, Problem};
use std::alloc::Global;

// The number of random individuals with which a population begins.
const BEGINNERS: u64 = 100;

// The number of iterations without a better plan after which a new population begins.
const MOST_IDLE: u64 = 20_000;

/// A search between two iterations.
#[derive(Drop)]
pub struct HybridSearch {
    local_search: LocalSearch,
    split: Split,
    crossover: Crossover,
    penalties: Penalties,
    population: Population,
    // The individual of the current iteration.
    offspring: Individual,
    // The best feasible individual. Its distance is the greatest one if there is none.
    best: Individual,
    // The distance of the best feasible individual of this population.
    best_here: Price,
    seed: u64,
    // The number of iterations, those of this population, and those since its best individual.
    iterations: u64,
    born: u64,
    idle: u64,
}

impl HybridSearch {
    /// Returns a search without individuals. The built plan shows about how many vehicles are needed.
    pub fn new(
        alloc: Global,
        problem: &Problem,
        built: &Plan,
        seed: u64,
    ) -> Result<HybridSearch, OutOfMemory> {
        let network = network_of(alloc, problem, built)?;
        Ok(HybridSearch {
            split: Split::new(alloc, &network)?,
            crossover: Crossover::new(alloc, network.size)?,
            penalties: Penalties::new(network.rate),
            population: Population::new(alloc),
            offspring: Individual::new(alloc, network.size)?,
            best: Individual::new(alloc, network.size)?,
            best_here: Price::MAX,
            seed,
            iterations: 0,
            born: 0,
            idle: 0,
            local_search: LocalSearch::new(alloc, network)?,
        })
    }

    /// Makes more iterations. The random numbers depend on the seed and on the number of the iteration.
    pub fn run(&mut self, alloc: Global, iterations: u64) -> Result<(), OutOfMemory> {
        for _ in 0..iterations {
            self.iterate(alloc, &mut Chance::new(self.seed, self.iterations))?;
            self.iterations = self.iterations.wrapping_add(1);
        }
        Ok(())
    }

    /// Returns the best plan so far if it passes the auditor, without pins, and costs less than the built plan.
    /// Otherwise returns the built plan.
    pub fn plan(&self, alloc: Global, problem: &Problem, built: &Plan) -> Result<Plan, OutOfMemory>
        ensures { IfOk result (λ plan. IsBred problem.now built.now.routes plan.routes) }
    {
        let found = plan_of(alloc, problem.fleet, self.network(), self.best())?;
        better(alloc, problem, built, found)
    }

    fn network(&self) -> &Network {
        &self.local_search.trips.network
    }

    // Returns the best feasible individual, if there is one.
    fn best(&self) -> Option<&Individual> {
        let is_found = self.best.distance < Price::MAX;
        if is_found { Some(&self.best) } else { None }
    }

    // Makes an individual, educates it, and adds it. Repairs half of those that exceed the capacity.
    fn iterate(&mut self, alloc: Global, chance: &mut Chance) -> Result<(), OutOfMemory> {
        if self.born < BEGINNERS {
            self.make_random(chance);
        } else {
            self.make_child(chance);
        }
        self.born = self.born.saturating_add(1);
        self.idle = self.idle.saturating_add(1);
        let rate = self.penalties.rate;
        self.local_search.educate(&mut self.offspring, rate, chance);
        self.penalties.note(self.offspring.is_feasible());
        self.add_offspring(alloc)?;
        if !self.offspring.is_feasible() && chance.below(2) == 0 {
            self.repair(alloc, chance)?;
        }
        if self.born > BEGINNERS && self.penalties.adapt() {
            self.population.reprice(self.penalties.rate);
        }
        if self.idle >= MOST_IDLE {
            self.restart(alloc);
        }
        Ok(())
    }

    // Makes the offspring of a random tour.
    fn make_random(&mut self, chance: &mut Chance) {
        chance.shuffle(&mut self.offspring.tour);
        let most = self.network().vehicles;
        self.cut(most);
    }

    // Makes the offspring of two parents. It has at most as many routes as the first one, if that is enough.
    fn make_child(&mut self, chance: &mut Chance) {
        self.population.rank();
        let first = self.population.select(chance);
        let second = self.population.select(chance);
        let (Some(first), Some(second)) = (first, second) else {
            return;
        };
        let tour = &mut self.offspring.tour;
        self.crossover
            .cross(tour, &first.tour, &second.tour, chance);
        let network = &self.local_search.trips.network;
        let most = first
            .routes
            .max(network.least_vehicles)
            .min(network.vehicles);
        self.cut(most);
    }

    // Cuts the tour of the offspring into at most `most` routes.
    fn cut(&mut self, most: u32) {
        let network = &self.local_search.trips.network;
        let rate = self.penalties.rate;
        self.split.split(network, &mut self.offspring, rate, most);
    }

    // Educates the offspring again, with ten times the penalty, and adds it if that makes it feasible.
    fn repair(&mut self, alloc: Global, chance: &mut Chance) -> Result<(), OutOfMemory> {
        let rate = self.penalties.rate.percent(1000);
        self.local_search.educate(&mut self.offspring, rate, chance);
        if self.offspring.is_feasible() {
            self.add_offspring(alloc)?;
        }
        Ok(())
    }

    // Adds the offspring to the population, and keeps it if it is the best.
    fn add_offspring(&mut self, alloc: Global) -> Result<(), OutOfMemory> {
        let offspring = &self.offspring;
        if offspring.is_feasible() && offspring.distance < self.best_here {
            self.best_here = offspring.distance;
            self.idle = 0;
            if offspring.distance < self.best.distance {
                self.best = offspring.clone()?;
            }
        }
        let copy = offspring.clone()?;
        self.population.add(alloc, copy, self.penalties.rate)
    }

    // Begins again with an empty population.
    fn restart(&mut self, alloc: Global) {
        self.population = Population::new(alloc);
        self.best_here = Price::MAX;
        self.born = 0;
        self.idle = 0;
    }
}
