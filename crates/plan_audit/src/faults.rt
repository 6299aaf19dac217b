//! The search for the first place that breaks a rule. Routes and places count from 0 here.
//!
//! The bound on a reported place (`+ 1 < 2 ^ 64`) is in the clauses, not in a ghost field. The definitions build
//! the records `PlaceFault` and `Fault`, and a record with a ghost field can be built only with a proof.
ghost use Rattle.std.specs.Prelude.{◌≡◌, ℕ, ◌+◌, ◌^◌, ◌<◌, List, Option, Contains, IfSome, length};
ghost use Rattle.plan_audit.specs.FirstFault.{first_place_fault, first_fault};
ghost use Rattle.std.specs.Borrow.{Bor};
ghost use Rattle.plan_audit.specs.declared.faults.PlaceFault.{PlaceFault};

use plan_types::Route;

/// A place of a route that breaks a rule, and the stop to report.
#[derive(Clone, Copy)]
pub(crate) struct PlaceFault {
    pub place: usize,
    pub stop: u32,
}

/// A place of a plan that breaks a rule, and the stop to report.
#[derive(Clone, Copy)]
pub(crate) struct Fault {
    pub route: usize,
    pub place: usize,
    pub stop: u32,
}

/// Calls `test` with each place and the stop there. Returns the first place for which `test` returns a stop to
/// report.
pub(crate) fn first_place_fault<F: Fn(usize, u32) -> Option<u32>>(
    route: &[u32],
    test: F,
) -> Option<PlaceFault>
    requires { F.IsAlwaysCallable test }
    ensures reported { (tells : ℕ → ℕ → Option ℕ)
        → ((i n : ℕ) (o : Option ℕ) → Contains route.now n → F.post test i n o → o ≡ tells i n)
        → result ≡ first_place_fault tells 0 route.now }
    ensures fits { IfSome result (λ t. t.place + 1 < 2 ^ 64) }
{
    for (place, stop) in route.iter().enumerate() {
        if let Some(stop) = test(place, *stop) {
            return Some(PlaceFault { place, stop });
        }
    }
    None
}

/// Calls `test` with the number and the stops of each route. Returns the first fault that `test` finds.
pub(crate) fn first_fault<F: Fn(usize, &[u32]) -> Option<PlaceFault>>(
    routes: &[Route],
    test: F,
) -> Option<Fault>
    requires { (k : ℕ) (route : Bor (List ℕ)) → Contains routes.now route.now → F.pre test k route }
    ensures reported { (tells : ℕ → List ℕ → Option PlaceFault)
        → ((k : ℕ) (route : Bor (List ℕ)) (o : Option PlaceFault) → Contains routes.now route.now
        → F.post test k route o → o ≡ tells k route.now)
        → result ≡ first_fault tells 0 routes.now }
    ensures route { IfSome result (λ f. f.route + 1 < 2 ^ 64) }
    ensures place { ((k : ℕ) (route : Bor (List ℕ)) (o : Option PlaceFault) → F.post test k route o
        → IfSome o (λ t. t.place + 1 < 2 ^ 64)) → IfSome result (λ f. f.place + 1 < 2 ^ 64) }
{
    for (number, route) in routes.iter().enumerate() {
        if let Some(reported) = test(number, route.as_slice()) {
            return Some(Fault {
                route: number,
                place: reported.place,
                stop: reported.stop,
            });
        }
    }
    None
}
