//! Routes and pins, one list for each vehicle.
ghost use Rattle.std.specs.Prelude.{◌≡◌, [], replicate, IfOk};

use plan_types::{OutOfMemory, Pins, Plan, Route, Routes};
use std::alloc::Global;

/// Returns an empty list for each of this many vehicles.
fn no_stops(alloc: Global, vehicles: u32) -> Result<Routes, OutOfMemory>
    ensures { IfOk result (λ lists. lists ≡ replicate vehicles []) }
{
    let mut lists = Routes::with_capacity(alloc, vehicles as usize)?;
    for _ in 0..vehicles {
        lists.push(Route::new(alloc))?;
    }
    Ok(lists)
}

/// The lists of a job. Separate functions build them: if one of these returns early, it has no `Problem` to drop.
#[derive(Drop)]
pub struct JobLists {
    pub pins: Pins,
    pub plan: Plan,
    pub work: Plan,
}

/// Returns copies of the pins and of both plans.
pub fn copies(pins: &Pins, plan: &Plan, work: &Plan) -> Result<JobLists, OutOfMemory>
    ensures { IfOk result (λ lists. lists
        ≡ record { pins = pins.now; plan = plan.now; work = work.now }) }
{
    Ok(JobLists {
        pins: pins.copy()?,
        plan: plan.copy()?,
        work: work.copy()?,
    })
}

/// Returns empty lists for this many vehicles.
pub fn empty_lists(alloc: Global, vehicles: u32) -> Result<JobLists, OutOfMemory>
    ensures { let none = replicate vehicles [] in IfOk result (λ lists. lists ≡ record {
      pins = record { routes = none };
      plan = record { routes = none };
      work = record { routes = none };
    }) }
{
    Ok(JobLists {
        pins: Pins {
            routes: no_stops(alloc, vehicles)?,
        },
        plan: Plan {
            routes: no_stops(alloc, vehicles)?,
        },
        work: Plan {
            routes: no_stops(alloc, vehicles)?,
        },
    })
}
