//! The request of a name, found in the table of stops. A name is the number of its request's first stop. This
//! look-up is one memory access; the map of names needs a hash.
ghost use Rattle.std.specs.Prelude.{◌≡◌};
ghost use Rattle.move_ops.specs.Insertion.{request_named};

use plan_types::{Problem, Request, requests_are_found_by_stop, requests_are_stored_by_name};

/// Returns the current request with this name.
pub fn request_named(problem: &Problem, name: u32) -> Option<Request>
    ensures { result ≡ request_named problem.now name }
{
    requests_are_found_by_stop();
    requests_are_stored_by_name();
    let Some(own) = problem.name_of(name) else {
        return None;
    };
    if own != name {
        return None;
    }
    let Some(first) = problem.stop(name) else {
        return None;
    };
    let Some(partner) = problem.partner_of(name) else {
        return Some(Request::Single(*first));
    };
    let Some(second) = problem.stop(partner) else {
        return None;
    };
    Some(Request::Pair(*first, *second))
}
