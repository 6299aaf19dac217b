//! Routes and pins of vehicles.
ghost use Rattle.std.specs.Prelude.{◌≡◌};
ghost use Rattle.plan_audit.specs.Passes.{has};
ghost use Rattle.move_ops.specs.Insertion.{route_of};

use plan_types::Route;

/// Returns the route or the pin of this vehicle, or an empty list if there is no such vehicle.
pub fn route_of(lists: &[Route], vehicle: u64) -> &[u32]
    ensures { result.now ≡ route_of lists.now vehicle }
{
    if vehicle == 0 {
        return &[];
    }
    match lists.get((vehicle - 1) as usize) {
        Some(route) => route.as_slice(),
        None => &[],
    }
}

/// Returns whether the list has the number.
pub(crate) fn is_in(list: &[u32], number: u32) -> bool
    ensures { result ≡ has list.now number }
{
    list.contains(&number)
}
