//! Pictures of plans.

use plan_audit::Verdict;
use plan_picture::{draw, draw_route};
use plan_types::{Cost, Kind, Problem, Request, Route, Routes, Stop};
use std::alloc::Global;
use std::test::Fail;

fn stop_at(number: u32, x: i32, y: i32, demand: i32, latest: u32) -> Stop {
    Stop {
        number,
        x,
        y,
        demand,
        earliest: 0,
        latest,
        service: 2,
    }
}

// Returns a problem with a pickup at (3, 4), its delivery at (6, 8), and the depot at (0, 0). The longer side of
// the map is 8, so the scale is 4000 / 8 = 500. The unit is 500 * 8 / 400 = 10, and each margin is 12 * 10.
fn one_pair(alloc: Global) -> Result<Problem, Fail> {
    let depot = Stop {
        service: 0,
        ..stop_at(0, 0, 0, 0, 100)
    };
    let mut problem = Problem::new(alloc, Kind::LiLim, depot, 10, 2)?;
    let pickup = stop_at(1, 3, 4, 4, 50);
    let delivery = stop_at(2, 6, 8, -4, 11);
    problem.put(Request::Pair(pickup, delivery))?;
    Ok(problem)
}

// Returns whether the text has each of these parts.
fn has_all(text: &str, lines: &[&str]) -> bool {
    for line in lines {
        if !text.contains(*line) {
            return false;
        }
    }
    true
}

// Returns whether a picture has each of these parts.
fn shows(picture: &[u8], lines: &[&str]) -> bool {
    match str::from_utf8(picture) {
        Ok(text) => has_all(text, lines),
        Err(_) => false,
    }
}

fn one_route(alloc: Global, stops: &[u32]) -> Result<Routes, Fail> {
    let mut routes = Routes::new(alloc);
    routes.push(Route::from(Vec::from_slice(alloc, stops)?))?;
    Ok(routes)
}

fn drawn(
    alloc: Global,
    problem: &Problem,
    routes: &[Route],
    verdict: Verdict,
    lines: &[&str],
) -> Result<bool, Fail> {
    let picture = draw(alloc, problem, routes, verdict)?;
    Ok(shows(picture.as_slice(), lines))
}

// Returns whether the picture of a plan with one route has each of these parts.
fn draws(alloc: Global, stops: &[u32], verdict: Verdict, lines: &[&str]) -> Result<bool, Fail> {
    let routes = one_route(alloc, stops)?;
    drawn(alloc, &one_pair(alloc)?, routes.as_slice(), verdict, lines)
}

// Returns whether the picture of the route with this number has the title `TITLE`, or `None` if there is no such
// route.
fn route_drawn(
    alloc: Global,
    problem: &Problem,
    routes: &[Route],
    verdict: Verdict,
    number: u64,
) -> Result<Option<bool>, Fail> {
    match draw_route(alloc, problem, routes, verdict, number)? {
        Some(picture) => Ok(Some(shows(picture.as_slice(), &[TITLE]))),
        None => Ok(None),
    }
}

// Returns the result of `route_drawn` for the plan with the one route [1, 2].
fn draws_route(alloc: Global, verdict: Verdict, number: u64) -> Result<Option<bool>, Fail> {
    let routes = one_route(alloc, &[1, 2])?;
    route_drawn(alloc, &one_pair(alloc)?, routes.as_slice(), verdict, number)
}

/// Parts of the expected picture. The vehicle arrives at stop 1 at 5 and leaves at 7. It arrives at stop 2 at
/// 12, which is 1 too late, leaves at 14, and is back at 24.
const PAIR_LINES: [&str; 10] = [
    ">unplanned 0, vehicles 1, distance 20</text>\n<svg",
    "viewBox='0 0 3240 4240' font-size='10'>\n",
    "<g class='pairs'>\n<polyline points=' 1620,2120 3120,120'/>\n</g>\n",
    "<g stroke='hsl(137,75%,34%)'>\n<polyline class='depot' points=' 120,4120 1020,2920 1620,2120'/>\n<polyline points=' 1620,2120 2520,920 3120,120'/>\n<polyline class='depot' points=' 3120,120 1320,2520 120,4120'/>\n</g>\n",
    "<use href='#depot' x='120' y='4120'><title>0</title></use>\n<use href='#pickup' x='1620' y='2120'><title>1</title></use>\n<use href='#delivery' x='3120' y='120'><title>2</title></use>\n<g text-anchor='middle'>\n",
    "<rect rx='1em' x='3085' y='25' width='70' height='60' fill='hsl(137,75%,34%)'/>\n<text class='badge' x='3120' y='73'>1</text>\n<text class='number' x='1620' y='2085'>1</text>\n<text class='number' x='3163' y='135'>2</text>\n</g>\n</svg>\n",
    "<text y='13'><tspan x='70'>1</tspan><tspan x='130'>2</tspan><tspan x='200'>4</tspan><tspan x='290'>20</tspan></text><g class='heading'>",
    "<text y='1106' x='404'>10</text>\n<rect fill='#ddd' y='1112' width='1' x='488' height='30'/>\n<text y='1106' x='488'>20</text>\n",
    "<rect class='drive' y='10' height='7' x='7' width='5'/>\n<rect class='serve' y='10' height='7' x='12' width='2'/>\n<rect class='window' y='18' height='2' x='0' width='11'/>\n<rect class='late' y='18' height='2' x='11' width='1'/>\n",
    "<text class='at' y='8' x='420'>2</text>\n<text class='time' y='28' x='420'>12</text>\n<text class='at' y='8' x='521'>0</text>\n<text class='time' y='28' x='521'>24</text>\n</g>\n</g>\n</svg>\n",
];

#[test]
fn draws_a_pair(rt: HostRuntime) -> Result<(), Fail> {
    let verdict = Verdict::Pass(Cost {
        unplanned: 0,
        vehicles: 1,
        distance: 20,
    });
    assert!(rt; draws(rt.alloc(), &[1, 2], verdict, &PAIR_LINES)?);
    Ok(())
}

/// Parts of the expected picture. Stop 7 is unknown, stop 1 appears twice, and stop 2 is in no route.
const BROKEN_LINES: [&str; 5] = [
    ">broken rule 2, visited twice, route 1, place 3, stop 1</text>\n",
    ">unserved stops, ringed: 1</text>\n",
    "<g class='broken' stroke='hsl(137,75%,34%)'>\n<polyline class='depot' points=' 120,4120 1020,2920 1620,2120'/>\n<polyline class='depot' points=' 1620,2120 720,3320 120,4120'/>\n</g>\n",
    "<use href='#unserved' x='3120' y='120'><title>2</title></use>\n<use href='#broken' x='1620' y='2120'><title>1</title></use>\n",
    "<text y='13' class='broken'><tspan x='70'>1</tspan><tspan x='130'>1</tspan>",
];

#[test]
fn draws_what_is_broken(rt: HostRuntime) -> Result<(), Fail> {
    let verdict = Verdict::Broken {
        rule: 2,
        route: 1,
        place: 3,
        stop: 1,
    };
    assert!(rt; draws(rt.alloc(), &[1, 7, 1], verdict, &BROKEN_LINES)?);
    Ok(())
}

/// The heading of the picture of route 1.
const TITLE: &str =
    ">route 1 of 1; the whole plan: broken rule 7, late service, route 1, place 2, stop 2, starts at 12, latest 11</text>\n";

#[test]
fn draws_one_route(rt: HostRuntime) -> Result<(), Fail> {
    let verdict = Verdict::Broken {
        rule: 7,
        route: 1,
        place: 2,
        stop: 2,
    };
    assert!(rt; draws_route(rt.alloc(), verdict, 0)?.is_none());
    assert!(rt; draws_route(rt.alloc(), verdict, 1)? == Some(true));
    assert!(rt; draws_route(rt.alloc(), verdict, 2)?.is_none());
    Ok(())
}
