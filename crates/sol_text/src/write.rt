//! The writer of solutions.

ghost use Rattle.std.specs.Prelude.{◌≡◌, ◌≢◌, ◌<◌, ◌++◌, ◌∷◌, [], ◌+◌, ◌^◌, length, IfOk, OnOk, OnErr, IsErrOf, IsOkUnless};
ghost use Rattle.std.specs.Fmt.{decimal};
ghost use Rattle.route_sched.specs.Route.{IsPlan};
ghost use Rattle.route_sched.specs.Cost.{unplanned_count, total_length, used_routes};
ghost use Rattle.sol_text.specs.Faults.{Spells};
ghost use Rattle.sol_text.specs.Written.{customers_text, route_text, routes_text, cost_text, solution_text};
ghost use Rattle.sol_text.specs.declared.faults.WriteSolFault.TheVariants.{Unplanned, OutOfMemory};

use crate::faults::WriteSolFault;
use itoa::Buffer;
use plan_types::{Plan, Problem, Route};
use route_sched::plan_cost;
use std::alloc::{AllocError, Global};
use text_lines::{decimals_parse_back, lines_end_at_line_feeds, lines_split_into_words};

/// Writes a plan in the format of CVRPLIB's `.sol` files: each nonempty route like `Route #1: 21 31 19`,
/// numbered from 1, and then the total distance like `Cost 784`, each on a line of its own.
///
/// # Errors
///
/// Returns `Unplanned` if a request is in no route, otherwise `OutOfMemory` if an allocation fails.
pub fn write_sol(alloc: Global, problem: &Problem, plan: &Plan) -> Result<Vec<u8>, WriteSolFault>
    requires { IsPlan problem.now plan.now.routes }
    ensures text { IfOk result (λ text. text.items
        ≡ solution_text (used_routes plan.now.routes) (total_length problem.now plan.now.routes)) }
    ensures spells { IfOk result (λ text. Spells text.items
        (record {
          routes = used_routes plan.now.routes;
          cost = total_length problem.now plan.now.routes;
        })) }
    ensures unplanned { let n = unplanned_count problem.now plan.now.routes in
        0 < n → IsErrOf result (Unplanned n) }
    ensures planned { unplanned_count problem.now plan.now.routes ≡ 0
        → IsOkUnless result OutOfMemory }
{
    let cost = plan_cost(problem, plan);
    if cost.unplanned > 0 {
        return Err(WriteSolFault::Unplanned(cost.unplanned));
    }
    let mut text = write_routes(alloc, plan.routes.as_slice())?;
    write_cost(&mut text, cost.distance)?;
    // By these laws, the text reads back as the routes and their distance.
    lines_end_at_line_feeds();
    lines_split_into_words();
    decimals_parse_back();
    Ok(text)
}

/// Writes only the route lines of a plan: each nonempty route as `write_sol` writes it, numbered from 1.
pub fn write_routes(alloc: Global, routes: &[Route]) -> Result<Vec<u8>, AllocError>
    ensures { IfOk result (λ text. text.items ≡ routes_text 1 (used_routes routes.now)) }
{
    let mut text = Vec::new(alloc);
    let mut number = 1u64;
    for route in routes {
        if !route.as_slice().is_empty() {
            write_route(&mut text, number, route.as_slice())?;
            number += 1;
        }
    }
    Ok(text)
}

#[tactic(auto, unfolding(crate::specs::Written::route_text))]
fn write_route(text: &mut Vec<u8>, number: u64, route: &[u32]) -> Result<(), AllocError>
    ensures { OnOk result (text.new.items
        ≡ text.old.items ++ (route_text number route.now ++ 10 ∷ [])) }
{
    text.extend_from_slice(b"Route #")?;
    write_number(text, number)?;
    text.push(b':')?;
    write_customers(text, route)?;
    text.push(b'\n')?;
    Ok(())
}

fn write_customers(text: &mut Vec<u8>, route: &[u32]) -> Result<(), AllocError>
    ensures { OnOk result (text.new.items ≡ text.old.items ++ customers_text route.now) }
{
    for customer in route {
        text.push(b' ')?;
        write_number(text, u64::from(*customer))?;
    }
    Ok(())
}

#[tactic(auto, unfolding(crate::specs::Written::cost_text))]
fn write_cost(text: &mut Vec<u8>, cost: u64) -> Result<(), AllocError>
    ensures { OnOk result (text.new.items ≡ text.old.items ++ (cost_text cost ++ 10 ∷ [])) }
{
    text.extend_from_slice(b"Cost ")?;
    write_number(text, cost)?;
    text.push(b'\n')?;
    Ok(())
}

fn write_number(text: &mut Vec<u8>, n: u64) -> Result<(), AllocError>
    ensures { OnOk result (text.new.items ≡ text.old.items ++ decimal n) }
{
    let mut buffer = Buffer::new();
    text.extend_from_slice(buffer.format(n).as_bytes())
}
