//! New routes for vehicles of a draft, in reused memory. The cost is updated with them.
ghost use Rattle.std.specs.Prelude.{◌≡◌, ◌≤◌, ◌^◌, true, All, IfSome, IfOk, OnOk, OnErr, length};
ghost use Rattle.move_ops.specs.WholePairs.{are_paired};
ghost use Rattle.move_ops.specs.FreshTables.{AreWithin};
ghost use Rattle.slack_tables.specs.Course.{course_of, course_route};
ghost use Rattle.route_sched.specs.Cost.{total_length, vehicle_count};
ghost use Rattle.route_sched.specs.Route.{AreDistinctStops};
ghost use Rattle.route_sched.specs.Schedule.{route_length};
ghost use Rattle.move_ops.specs.Insertion.{route_of, with_route};
ghost use Rattle.slack_tables.specs.Insertion.{KeepsLimits};
ghost use Rattle.move_ops.specs.Changes.{used, changes_of, with_routes, AreCourses, AreToursOf, IsChange, IsTourIfFeasible};
ghost use Rattle.std.specs.Option.{option_map};
ghost use Rattle.move_ops.specs.Tables.{AreTablesIn};
ghost use Rattle.move_ops.specs.Drafts.{undone, draft_of, base_of, IsDraftOf, IsMade};

use super::Draft;
use crate::changes::Change;
use crate::tour::{Tour, tour_of};
use plan_audit::passing_is_local;
use plan_types::{Cost, Kind, OutOfMemory, Pins, Problem, numbers_are_below_next_number};

impl Draft {
    /// Applies the changes unless they are `None`. Returns whether they were applied. The changed draft leaves
    /// `unplanned` requests out.
    pub(crate) fn apply(
        &mut self,
        problem: &Problem,
        pins: &Pins,
        changes: Option<Vec<Change>>,
        unplanned: u64,
    ) -> Result<bool, OutOfMemory>
        requires is { IsDraftOf problem.now pins.now.routes self.old }
        requires change { IfSome changes
            (λ cs. IsChange problem.now pins.now.routes (draft_of self.old) cs.items unplanned) }
        ensures is { OnOk result (IsDraftOf problem.now pins.now.routes self.new) }
        ensures base { OnOk result (base_of self.new ≡ base_of self.old) }
        ensures draft { IfOk result (λ made.
            IsMade (option_map (λ cs. with_routes (draft_of self.old) cs.items) changes) made
            self.old self.new) }
        ensures err { OnErr result (self.new ≡ self.old) }
    {
        match changes {
            Some(changes) => {
                let tours = self.new_tours(problem, &changes)?;
                self.install(problem, pins, tours, unplanned);
                Ok(true)
            }
            None => Ok(false),
        }
    }

    /// Replaces the tours of some vehicles. The new draft leaves `unplanned` requests out. Cannot fail.
    pub(crate) fn install(
        &mut self,
        problem: &Problem,
        pins: &Pins,
        tours: Vec<(u32, Tour)>,
        unplanned: u64,
    )
        requires is { IsDraftOf problem.now pins.now.routes self.old }
        requires courses { AreCourses problem.now tours.items }
        requires change { IsChange problem.now pins.now.routes
            (draft_of self.old) (changes_of tours.items) unplanned }
        ensures is { IsDraftOf problem.now pins.now.routes self.new }
        ensures base { base_of self.new ≡ base_of self.old }
        ensures draft { draft_of self.new
            ≡ with_routes (draft_of self.old) (changes_of tours.items) }
    {
        passing_is_local();
        numbers_are_below_next_number();
        let (vehicles, distance) = self.set_tours(problem, tours);
        self.cost = Cost {
            unplanned,
            vehicles,
            distance,
        };
    }

    // Replaces the tours of these vehicles. Returns the new number of used vehicles and the new total distance.
    fn set_tours(&mut self, problem: &Problem, tours: Vec<(u32, Tour)>) -> (u64, u64)
        requires tables { AreTablesIn problem.now self.old.tours }
        requires within { AreWithin (length self.old.tours) tours.items }
        requires courses { AreCourses problem.now tours.items }
        requires vehicles { self.old.cost.vehicles
            ≡ vehicle_count problem.now.kind (draft_of self.old) }
        requires distance { self.old.cost.distance ≡ total_length problem.now (draft_of self.old) }
        requires small { total_length problem.now
            (with_routes (draft_of self.old) (changes_of tours.items)) ≤ 2 ^ 63 }
        ensures tables { AreTablesIn problem.now self.new.tours }
        ensures plan { draft_of self.new
            ≡ with_routes (draft_of self.old) (changes_of tours.items) }
        ensures base { undone self.new.tours self.new.log ≡ undone self.old.tours self.old.log }
        ensures vehicles { result.0 ≡ vehicle_count problem.now.kind (draft_of self.new) }
        ensures distance { result.1 ≡ total_length problem.now (draft_of self.new) }
        ensures pinned { self.new.pinned ≡ self.old.pinned }
        ensures base_cost { self.new.base_cost ≡ self.old.base_cost }
    {
        let mut vehicles = self.cost.vehicles;
        let mut driven = u128::from(self.cost.distance);
        for (vehicle, tour) in tours {
            vehicles = self.vehicle_count_with(problem, vehicle, &tour, vehicles);
            driven += u128::from(tour.table().distance());
            driven -= u128::from(self.distance_of(problem, vehicle));
            self.set_tour(vehicle, tour);
        }
        (vehicles, driven as u64)
    }

    /// Returns the number of vehicles in the cost after `vehicle` gets the tour `tour`. `now` is the number
    /// before.
    pub(crate) fn vehicle_count_with(
        &self,
        problem: &Problem,
        vehicle: u32,
        tour: &Tour,
        now: u64,
    ) -> u64
        requires from_one { 1 ≤ vehicle }
        requires within { vehicle ≤ length self.now.tours }
        requires now { now ≡ vehicle_count problem.now.kind (draft_of self.now) }
        ensures { result ≡ vehicle_count problem.now.kind
            (with_route (draft_of self.now) vehicle (course_route tour.now)) }
    {
        let old = &self.tours[(vehicle - 1) as usize];
        match problem.kind {
            Kind::LiLim => now - used(old) + used(tour),
            Kind::Vrp => 0,
        }
    }

    // Builds the tours of changes, all of which keep the limits.
    fn new_tours(
        &mut self,
        problem: &Problem,
        changes: &[Change],
    ) -> Result<Vec<(u32, Tour)>, OutOfMemory>
        requires tables { AreTablesIn problem.now self.old.tours }
        requires within { All (λ c. (1 ≤ c.vehicle)
            × (c.vehicle ≤ length self.old.tours)) changes.now }
        requires once { All (λ c. AreDistinctStops problem.now c.route) changes.now }
        requires keeps { All (λ c. KeepsLimits problem.now c.route) changes.now }
        ensures tours { IfOk result (λ tours. AreToursOf problem.now changes.now tours.items) }
        ensures same { self.new ≡ self.old }
    {
        let mut tours = Vec::with_capacity(*self.tours.allocator(), changes.len())?;
        for change in changes {
            let tour = self.new_tour(problem, change.vehicle, change.route.as_slice())?;
            tours.push((change.vehicle, tour))?;
        }
        Ok(tours)
    }

    /// Builds the tour of a new route for this vehicle, in a spare buffer if there is one. The caller guarantees
    /// that the pairs of the route are whole.
    pub(crate) fn feasible_tour(
        &mut self,
        problem: &Problem,
        vehicle: u32,
        route: &[u32],
    ) -> Result<Option<Tour>, OutOfMemory>
        requires tables { AreTablesIn problem.now self.old.tours }
        requires from_one { 1 ≤ vehicle }
        requires within { vehicle ≤ length self.old.tours }
        requires once { AreDistinctStops problem.now route.now }
        requires pairs { are_paired problem.now route.now ≡ true }
        ensures tour { IfOk result (λ o. IsTourIfFeasible problem.now route.now o) }
        ensures same { self.new ≡ self.old }
    {
        let spare = self.spare.pop();
        let near = tour_of(&self.tours, u64::from(vehicle));
        match spare {
            Some(tour) => tour.into_rebuilt_if_feasible(problem, near, route),
            None => Tour::build_if_feasible(*self.tours.allocator(), problem, near, route),
        }
    }

    /// Returns the distance of a vehicle's route.
    pub(super) fn distance_of(&self, problem: &Problem, vehicle: u32) -> u64
        requires tables { AreTablesIn problem.now self.now.tours }
        requires from_one { 1 ≤ vehicle }
        requires within { vehicle ≤ length self.now.tours }
        ensures { result ≡ route_length problem.now (route_of (draft_of self.now) vehicle) }
    {
        self.tours[(vehicle - 1) as usize].table().distance()
    }

    /// Builds the tour of a new route for this vehicle, in a spare buffer if there is one.
    pub(crate) fn new_tour(
        &mut self,
        problem: &Problem,
        vehicle: u32,
        route: &[u32],
    ) -> Result<Tour, OutOfMemory>
        requires tables { AreTablesIn problem.now self.old.tours }
        requires from_one { 1 ≤ vehicle }
        requires within { vehicle ≤ length self.old.tours }
        requires route { AreDistinctStops problem.now route.now }
        requires limits { KeepsLimits problem.now route.now }
        ensures course { IfOk result (λ tour. tour ≡ course_of problem.now route.now) }
        ensures route { IfOk result (λ tour. course_route tour ≡ route.now) }
        ensures same { self.new ≡ self.old }
    {
        match self.spare.pop() {
            Some(tour) => {
                tour.into_rebuilt(problem, tour_of(&self.tours, u64::from(vehicle)), route)
            }
            None => Tour::build(*self.tours.allocator(), problem, route),
        }
    }
}

// Returns how many vehicles a tour uses, one or none.
fn used(tour: &Tour) -> u64
    ensures { result ≡ used (course_route tour.now) }
{
    u64::from(!tour.stops().is_empty())
}
