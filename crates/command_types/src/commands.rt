//! The commands of a planner, and the properties of a command that depend on no state.
ghost use Rattle.std.specs.Prelude.{◌≡◌, ◌≤◌};
ghost use Rattle.command_types.specs.Commands.{is_recorded, makes_steps, steps_of, stops_added};

use plan_types::{Plan, Problem};

/// The place, time window and service time of a new stop: a stop without its number and demand. The travel time
/// between two stops equals their distance.
#[derive(Clone, Copy, Debug, PartialEq, Eq)]
pub struct Spot {
    /// The coordinates, in -1,000,000..=1,000,000.
    pub x: i32,
    pub y: i32,
    /// The time window in which service begins, in 0..=100,000,000.
    pub earliest: u32,
    pub latest: u32,
    /// The service time, in 0..=1,000,000.
    pub service: u32,
}

/// A command of a planner. Fields may be out of range; the command is then refused.
#[derive(Debug, Drop)]
pub enum Command {
    /// Starts over with this problem and this seed.
    Load(Problem, u64),
    /// Adds a request that picks up a load at one spot and delivers it at another, by the same vehicle.
    Add {
        demand: u32,
        pickup: Spot,
        delivery: Spot,
    },
    /// Adds a request of one stop.
    Add1 {
        demand: u32,
        spot: Spot,
    },
    /// Removes the request with this name.
    Withdraw(u32),
    /// Pins the first stops of a vehicle's route. The fields are the number of the vehicle, from 1, and the
    /// number of stops.
    Pin(u32, u32),
    /// Removes the pin of this vehicle.
    Unpin(u32),
    /// Inserts each unplanned request at its best place, if it has one.
    Build,
    /// Makes this many steps of the search, 1..=`MAX_SEARCH_STEPS`.
    Search(u16),
    /// Changes nothing. A store writes a snapshot.
    Checkpoint,
    /// Limits by how much the distance of the working plan may exceed the incumbent's, 0..=`MAX_DEVIATION`. In
    /// an annealing step the limit is relative to the previous working plan.
    Deviation(u32),
    /// Makes this many annealing steps, 1..=`MAX_ANNEAL_STEPS`. A store writes a snapshot.
    Anneal(u32),
    /// Makes this many steps, 1..=`MAX_REDUCE_STEPS`, starting at the incumbent. If vehicles count in the cost,
    /// the first steps are attempts to use fewer vehicles, or one attempt to insert the requests that are left
    /// out. The remaining steps anneal. A store writes a snapshot.
    Reduce(u32),
    /// Makes this plan the incumbent. It must have a route for each vehicle and may not cost more than the
    /// incumbent. A store writes a snapshot.
    Adopt(Plan),
}

impl Command {
    /// Returns whether a store writes this command as a record of its journal. For any other command it writes a
    /// snapshot of the resulting state.
    pub fn is_recorded(&self) -> bool
        ensures { result ≡ is_recorded self.now }
    {
        match self {
            Command::Load(..)
            | Command::Checkpoint
            | Command::Anneal(_)
            | Command::Reduce(_)
            | Command::Adopt(_) => false,
            Command::Add { .. }
            | Command::Add1 { .. }
            | Command::Withdraw(_)
            | Command::Pin(..)
            | Command::Unpin(_)
            | Command::Build
            | Command::Search(_)
            | Command::Deviation(_) => true,
        }
    }

    /// Returns the number of steps that this command makes: of the search, of annealing or of attempts.
    pub fn steps(&self) -> u64
        ensures { result ≡ steps_of self.now }
    {
        match self {
            Command::Search(count) => u64::from(*count),
            Command::Anneal(count) | Command::Reduce(count) => u64::from(*count),
            _ => 0,
        }
    }

    /// Returns whether this command makes steps, so that progress lines are printed.
    pub fn makes_steps(&self) -> bool
        ensures { result ≡ makes_steps self.now }
    {
        matches!(
            self,
            Command::Search(_) | Command::Anneal(_) | Command::Reduce(_)
        )
    }

    /// Returns the number of stops that this command adds.
    pub fn stops_added(&self) -> u32
        ensures added { result ≡ stops_added self.now }
        ensures few { result ≤ 2 }
    {
        match self {
            Command::Add { .. } => 2,
            Command::Add1 { .. } => 1,
            _ => 0,
        }
    }
}
