//! The readers of solutions.

ghost use Rattle.std.specs.Prelude.{◌≡◌, ◌⊎◌, IfOk, IfErr, List, ℕ, true, false};
ghost use Rattle.text_lines.specs.Lines.{lines_of};
ghost use Rattle.sol_text.specs.Reading.{Returns, reading, routes_of, solution_of};
ghost use Rattle.plan_types.specs.declared.solutions.Solution.{Solution};
ghost use Rattle.sol_text.specs.Faults.{HasFaultyRoutes, HasPrintedCost, IsFirstFault, IsFirstRoutesFault, IsUnlessOutOfMemory, Spells, SpellsRoutes, out_of_memory};

use crate::faults::{SolFault, SolFaultKind};
use crate::lines::{Line, parse_line};
use plan_types::{Routes, Solution};
use std::alloc::Global;
use text_lines::Lines;

/// The routes of a solution text, and the cost that it prints.
#[derive(Debug, Drop)]
pub struct PrintedRoutes {
    /// The customers of each route line, in order.
    pub routes: Routes,
    /// The printed distance, or its fault: there is no cost line, or its word is not a number.
    pub cost: Result<u64, SolFault>,
}

/// Reads a solution in the format of CVRPLIB's `.sol` files: lines like `Route #1: 21 31 19`, then one like
/// `Cost 784`. The text after the cost line is ignored.
///
/// # Errors
///
/// Returns the fault of the first faulty line, or `OutOfMemory` with line 0.
pub fn read_sol(alloc: Global, text: &[u8]) -> Result<Solution, SolFault>
    // The text spells the solution returned.
    ensures found { IfOk result (Spells text.now) }
    // A solution that the text spells is returned, unless memory runs out.
    ensures only { (s : Solution) → Spells text.now s → IsUnlessOutOfMemory result s }
    // Otherwise the first fault is returned.
    ensures fault { IfErr result (λ f. (f ≡ out_of_memory) ⊎ IsFirstFault text.now f) }
{
    solution_of(read_lines(alloc, text, false))
}

/// Reads the routes of a solution as `read_sol` does, and its cost if that can be read.
///
/// # Errors
///
/// Returns the first fault of the text if it is not one of the cost, or `OutOfMemory` with line 0.
pub fn read_printed_routes(alloc: Global, text: &[u8]) -> Result<PrintedRoutes, SolFault>
    ensures found { IfOk result (λ read. HasPrintedCost text.now read.routes read.cost) }
    ensures fault { IfErr result (λ f. (f ≡ out_of_memory) ⊎ HasFaultyRoutes text.now f) }
{
    read_lines(alloc, text, false)
}

/// Reads the routes of the lines before the first cost line, or of all lines if there is none. Lines before the
/// first route line are skipped, so a text may have a head, and the cost line may be missing or hold any word.
///
/// # Errors
///
/// Returns the fault of the first faulty line, or `OutOfMemory` with line 0.
pub fn read_routes(alloc: Global, text: &[u8]) -> Result<Routes, SolFault>
    // The text spells the routes returned.
    ensures found { IfOk result (SpellsRoutes text.now) }
    // Routes that the text spells are returned, unless memory runs out.
    ensures only { (routes : List (List ℕ)) → SpellsRoutes text.now routes
        → IsUnlessOutOfMemory result routes }
    // Otherwise the first fault of the routes is returned.
    ensures fault { IfErr result (λ f. (f ≡ out_of_memory) ⊎ IsFirstRoutesFault text.now f) }
{
    routes_of(read_lines(alloc, text, true))
}

fn solution_of(read: Result<PrintedRoutes, SolFault>) -> Result<Solution, SolFault>
    ensures { result ≡ solution_of read }
{
    let PrintedRoutes { routes, cost } = read?;
    let cost = cost?;
    Ok(Solution { routes, cost })
}

fn routes_of(read: Result<PrintedRoutes, SolFault>) -> Result<Routes, SolFault>
    ensures { result ≡ routes_of read }
{
    let PrintedRoutes { routes, .. } = read?;
    Ok(routes)
}

// Reads line by line, up to the first fault of a route or the cost line.
fn read_lines(alloc: Global, text: &[u8], skips_head: bool) -> Result<PrintedRoutes, SolFault>
    ensures { Returns result (reading skips_head 0 (lines_of text.now)) }
{
    let mut routes = Vec::new(alloc);
    let mut number = 0;
    let mut in_head = skips_head;
    for line in Lines::new(text) {
        number += 1;
        match parse_line(alloc, in_head, number, line)? {
            Line::Skipped => {}
            Line::Route(route) => {
                routes.push(route)?;
                in_head = false;
            }
            Line::Cost(cost) => {
                return Ok(PrintedRoutes {
                    routes: Routes::from(routes),
                    cost,
                });
            }
        }
    }
    let cost = Err(SolFault {
        line: number + 1,
        kind: SolFaultKind::NoCost,
    });
    Ok(PrintedRoutes {
        routes: Routes::from(routes),
        cost,
    })
}
