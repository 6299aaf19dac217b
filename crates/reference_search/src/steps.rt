//! A step by the table of operators.
ghost use Rattle.std.specs.Prelude.{◌≡◌, true};
ghost use Rattle.plan_audit.specs.Passes.{passes};

use crate::plans::{cost, placed, serves};
use move_ops::{exchange, remove, two_opt_star};
use plan_types::{Cost, OutOfMemory, Pins, Plan, Problem};
use seeded_search::Found;
use std::alloc::Global;

/// Returns the incumbent and the working plan after a step with these random words.
pub(crate) fn step(
    alloc: Global,
    problem: &Problem,
    pins: &Pins,
    found: &Found,
    best: &Cost,
    deviation: u32,
    words: &[u32; 16],
) -> Result<Found, OutOfMemory>
    requires { passes problem.now pins.now.routes found.now.work.routes ≡ true }
{
    let work = StepInput {
        problem,
        pins,
        plan: &found.work,
        words,
    };
    match work.candidate(alloc)? {
        Some(candidate) => accepted_plans(alloc, problem, pins, found, best, deviation, &candidate),
        None => copies_of(&found.plan, &found.work),
    }
}

// Returns the incumbent and the working plan after the candidate is accepted or rejected.
fn accepted_plans(
    alloc: Global,
    problem: &Problem,
    pins: &Pins,
    found: &Found,
    best: &Cost,
    deviation: u32,
    candidate: &Plan,
) -> Result<Found, OutOfMemory> {
    let (mut plan, mut work) = (&found.plan, &found.work);
    if let Some(cost) = cost(alloc, problem, pins, candidate)? {
        if cost <= *best {
            plan = candidate;
        }
        if is_near(&cost, best, deviation) {
            work = candidate;
        }
    }
    copies_of(plan, work)
}

/// Returns copies of an incumbent and a working plan.
pub(crate) fn copies_of(plan: &Plan, work: &Plan) -> Result<Found, OutOfMemory> {
    Ok(Found {
        plan: plan.copy()?,
        work: work.copy()?,
    })
}

fn is_near(cost: &Cost, best: &Cost, deviation: u32) -> bool {
    let pair = (cost.unplanned, cost.vehicles);
    let best_pair = (best.unplanned, best.vehicles);
    pair < best_pair
        || pair == best_pair && cost.distance <= best.distance.saturating_add(u64::from(deviation))
}

/// A working plan, which passes, and the words of a step.
#[derive(Drop)]
struct StepInput<'a> {
    problem: &'a Problem,
    pins: &'a Pins,
    plan: &'a Plan,
    words: &'a [u32; 16],
    ghost passing: { passes problem.now pins.now.routes plan.now.routes ≡ true },
}

impl StepInput<'_> {
    fn candidate(&self, alloc: Global) -> Result<Option<Plan>, OutOfMemory> {
        match picked(self.words[0], 4) {
            0 => self.relocated(alloc),
            1 => self.exchanged(alloc),
            2 => self.crossed(alloc),
            _ => self.recreated(alloc),
        }
    }

    fn relocated(&self, alloc: Global) -> Result<Option<Plan>, OutOfMemory> {
        let names = self.movable(alloc)?;
        match names.get(picked(self.words[1], names.len())) {
            Some(name) => self.replaced(alloc, &[*name]),
            None => Ok(None),
        }
    }

    fn exchanged(&self, alloc: Global) -> Result<Option<Plan>, OutOfMemory> {
        let names = self.movable(alloc)?;
        let one = names.get(picked(self.words[1], names.len()));
        let other = names.get(picked(self.words[2], names.len()));
        match (one, other) {
            (Some(one), Some(other)) => {
                exchange(alloc, self.problem, self.pins, self.plan, *one, *other)
            }
            _ => Ok(None),
        }
    }

    fn crossed(&self, alloc: Global) -> Result<Option<Plan>, OutOfMemory> {
        let used = self.used(alloc)?;
        let a = used.get(picked(self.words[1], used.len()));
        let b = used.get(picked(self.words[2], used.len()));
        match (a, b) {
            (Some(a), Some(b)) => self.crossed_at(alloc, *a, *b),
            _ => Ok(None),
        }
    }

    // Returns the indices, from 0, of the vehicles with a stop.
    fn used(&self, alloc: Global) -> Result<Vec<usize>, OutOfMemory> {
        let mut used = Vec::new(alloc);
        for (index, route) in self.plan.routes.as_slice().iter().enumerate() {
            if !route.as_slice().is_empty() {
                used.push(index)?;
            }
        }
        Ok(used)
    }

    fn crossed_at(&self, alloc: Global, a: usize, b: usize) -> Result<Option<Plan>, OutOfMemory> {
        two_opt_star(
            alloc,
            self.problem,
            self.pins,
            self.plan,
            (a as u64).saturating_add(1),
            cut(self.pins, self.plan, a, self.words[3]),
            (b as u64).saturating_add(1),
            cut(self.pins, self.plan, b, self.words[4]),
        )
    }

    fn recreated(&self, alloc: Global) -> Result<Option<Plan>, OutOfMemory> {
        let drawn = drawn(alloc, self.movable(alloc)?, self.words)?;
        if drawn.is_empty() {
            return Ok(None);
        }
        match self.replaced(alloc, &drawn)? {
            Some(plan) => Ok(Some(self.with_others(alloc, plan)?)),
            None => Ok(None),
        }
    }

    // Returns the plan with these requests removed and inserted again one by one.
    fn replaced(&self, alloc: Global, names: &[u32]) -> Result<Option<Plan>, OutOfMemory> {
        match remove(alloc, self.problem, self.pins, self.plan, names)? {
            Some(left) => Ok(Some(self.with(alloc, left, names)?)),
            None => Ok(None),
        }
    }

    // Returns the plan with these requests inserted one by one.
    fn with(&self, alloc: Global, plan: Plan, names: &[u32]) -> Result<Plan, OutOfMemory> {
        let mut plan = plan;
        for name in names {
            plan = self.placed(alloc, plan, *name)?;
        }
        Ok(plan)
    }

    // Returns the plan after inserting the requests that the working plan leaves out. The drawn requests were
    // inserted before.
    fn with_others(&self, alloc: Global, plan: Plan) -> Result<Plan, OutOfMemory> {
        let problem = self.problem;
        let mut plan = plan;
        for index in 0..problem.requests.len() {
            if let Some((name, request)) = problem.requests.get_index(index) {
                if !serves(&self.plan.routes, request) {
                    plan = self.placed(alloc, plan, *name)?;
                }
            }
        }
        Ok(plan)
    }

    // Returns the planned requests without a pinned stop, in ascending order of name.
    fn movable(&self, alloc: Global) -> Result<Vec<u32>, OutOfMemory> {
        let problem = self.problem;
        let mut names = Vec::new(alloc);
        for index in 0..problem.requests.len() {
            if let Some((name, request)) = problem.requests.get_index(index) {
                if serves(&self.plan.routes, request) && !serves(&self.pins.routes, request) {
                    names.push(*name)?;
                }
            }
        }
        Ok(names)
    }

    // Returns the plan with the request inserted at its best place, or unchanged.
    fn placed(&self, alloc: Global, plan: Plan, name: u32) -> Result<Plan, OutOfMemory> {
        placed(alloc, self.problem, self.pins, plan, name)
    }
}

// Returns the index, from 0, of the item that the word picks among `things` items.
fn picked(word: u32, things: usize) -> usize {
    ((u128::from(word) * things as u128) >> 32) as usize
}

// Returns the number of stops before the cut that the word picks. The cut is never within the pin.
fn cut(pins: &Pins, work: &Plan, index: usize, word: u32) -> u64 {
    let stops = match work.routes.as_slice().get(index) {
        Some(route) => route.as_slice().len(),
        None => 0,
    };
    let pinned = match pins.routes.as_slice().get(index) {
        Some(pin) => pin.as_slice().len(),
        None => 0,
    };
    let places = stops.saturating_sub(pinned).saturating_add(1);
    pinned.saturating_add(picked(word, places)) as u64
}

// Draws one to eight of the names, each from the remaining ones; fewer if there are fewer names.
fn drawn(alloc: Global, names: Vec<u32>, words: &[u32; 16]) -> Result<Vec<u32>, OutOfMemory> {
    let mut left = names;
    let mut drawn = Vec::new(alloc);
    for word in words
        .iter()
        .skip(2)
        .take(picked(words[1], 8).saturating_add(1))
    {
        let index = picked(*word, left.len());
        if index < left.len() {
            drawn.push(left.remove(index))?;
        }
    }
    Ok(drawn)
}
