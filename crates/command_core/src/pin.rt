//! Executes `Pin` and `Unpin`.
ghost use Rattle.std.specs.Prelude.{◌≡◌, true, None, IfOk, IfErr};
ghost use Rattle.move_ops.specs.Insertion.{with_route};
ghost use Rattle.command_core.specs.Changes.{job_with};
ghost use Rattle.command_core.specs.Effects.{with_pins, pinned, unpinned};
ghost use Rattle.command_core.specs.Refusals.{is_vehicle, job_refusal};

use crate::changes::JobChange;
use command_types::{Command, Job, Refusal};
use move_ops::route_of;
use plan_types::Route;
use std::alloc::Global;

/// Pins the first `stops` stops of the vehicle's route.
pub(crate) fn pin(alloc: Global, job: &Job, vehicle: u32, stops: u32) -> Result<JobChange, Refusal>
    requires { job_refusal job.now (Command.Pin vehicle stops) ≡ None }
    ensures ok { IfOk result (λ change. job_with change job.now ≡ pinned job.now vehicle stops) }
    ensures err { IfErr result (λ r. r ≡ Refusal.OutOfMemory) }
{
    let route = route_of(job.plan.routes.as_slice(), u64::from(vehicle));
    let mut pin = Route::with_capacity(alloc, stops as usize)?;
    pin.extend_from_slice(&route[..stops as usize])?;
    with_pin(job, vehicle, pin)
}

/// Removes the pin of the vehicle.
pub(crate) fn unpin(alloc: Global, job: &Job, vehicle: u32) -> Result<JobChange, Refusal>
    requires { job_refusal job.now (Command.Unpin vehicle) ≡ None }
    ensures ok { IfOk result (λ change. job_with change job.now ≡ unpinned job.now vehicle) }
    ensures err { IfErr result (λ r. r ≡ Refusal.OutOfMemory) }
{
    with_pin(job, vehicle, Route::new(alloc))
}

// Replaces the pin of the vehicle.
fn with_pin(job: &Job, vehicle: u32, pin: Route) -> Result<JobChange, Refusal>
    requires { is_vehicle job.now.problem vehicle ≡ true }
    ensures ok { IfOk result (λ change. job_with change job.now
        ≡ with_pins job.now (with_route job.now.pins vehicle pin)) }
    ensures err { IfErr result (λ r. r ≡ Refusal.OutOfMemory) }
{
    let mut pins = job.pins.copy()?;
    pins.routes.set((vehicle - 1) as usize, pin);
    Ok(JobChange::Pinned {
        pins,
        work: job.plan.copy()?,
    })
}
