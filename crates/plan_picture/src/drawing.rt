//! The whole picture: the verdict, the map, the table and the days; and the picture of one route.
ghost use Rattle.std.specs.Prelude.{◌≡◌, ◌≤◌, ◌^◌, ◌++◌, All, IfOk, OnOk};
ghost use Rattle.std.specs.Option.{option_map};
ghost use Rattle.route_sched.specs.Route.{AreDistinctStops};
ghost use Rattle.plan_picture.specs.Picture.{broken_route, broken_stop, map_and_table_text, picture, route_picture, route_text, sized_head, whole_text};

use crate::drawn_stops::{kept_routes, stops_along, stops_in_order, unserved};
use crate::scene::{Highlight, Scene};
use crate::svg::Svg;
use crate::table::grid_of;
use crate::tags::Tag;
use plan_audit::Verdict;
use plan_types::{OutOfMemory, Problem, Route, Stop};
use std::alloc::Global;
use std::slice;

/// Returns the picture of a plan as SVG 2: a line for each route with its direction, a mark and a number for
/// each stop, and a row of values for each route. If the problem has windows, it also has the day of each
/// vehicle. All computed numbers are whole.
///
/// A violation is marked, and described in words. For each route the picture has the stops that the problem
/// knows, each at its first place, so a plan that breaks rules is drawn too. Unserved stops are ringed and
/// counted.
pub fn draw(
    alloc: Global,
    problem: &Problem,
    routes: &[Route],
    verdict: Verdict,
) -> Result<Vec<u8>, OutOfMemory>
    ensures { IfOk result (λ svg. svg.items ≡ picture problem.now routes.now verdict) }
{
    let kept = kept_routes(alloc, problem, routes)?;
    let mut svg = Svg::new(alloc);
    svg.put_whole(alloc, problem, &kept, verdict)?;
    svg.put(Tag::End);
    svg.into_vec()
}

/// Returns the picture of a single route. It is larger, since only the stops of this route fill the map. Routes
/// count from 1. Returns `None` if there is no route with this number.
pub fn draw_route(
    alloc: Global,
    problem: &Problem,
    routes: &[Route],
    verdict: Verdict,
    number: u64,
) -> Result<Option<Vec<u8>>, OutOfMemory>
    ensures { IfOk result (λ svg. option_map (λ svg. svg.items) svg
        ≡ route_picture problem.now routes.now verdict number) }
{
    let kept = kept_routes(alloc, problem, routes)?;
    if number == 0 {
        return Ok(None);
    }
    let Some(route) = kept.get(number as usize - 1) else {
        return Ok(None);
    };
    let mut svg = Svg::new(alloc);
    svg.put_route(alloc, problem, &kept, verdict, number, route)?;
    svg.put(Tag::End);
    Ok(Some(svg.into_vec()?))
}

fn broken_at(verdict: Verdict) -> Highlight
    ensures route { result.route ≡ broken_route verdict }
    ensures stop { result.stop ≡ broken_stop verdict }
{
    match verdict {
        Verdict::Pass(_) => Highlight { route: 0, stop: 0 },
        Verdict::Broken { route, stop, .. } => Highlight { route, stop },
    }
}

impl Svg {
    #[tactic(auto, unfolding(crate::specs::Picture::whole_text))]
    fn put_whole(
        &mut self,
        alloc: Global,
        problem: &Problem,
        routes: &[Route],
        verdict: Verdict,
    ) -> Result<(), OutOfMemory>
        requires { All (AreDistinctStops problem.now) routes.now }
        ensures { OnOk result (self.new ≡ self.old ++ whole_text problem.now routes.now verdict) }
    {
        let stops = stops_in_order(alloc, problem)?;
        let left = unserved(alloc, routes, &stops)?;
        self.put_sized_head(problem, routes.len());
        self.put_title(problem, routes, verdict, 0);
        self.put_unserved_count(left.len());
        self.put_map_and_table(alloc, problem, &stops, 1, routes, verdict)
    }

    #[tactic(auto, unfolding(crate::specs::Picture::route_text))]
    fn put_route(
        &mut self,
        alloc: Global,
        problem: &Problem,
        routes: &[Route],
        verdict: Verdict,
        number: u64,
        route: &Route,
    ) -> Result<(), OutOfMemory>
        requires number { number ≤ 2 ^ 63 }
        requires routes { All (AreDistinctStops problem.now) routes.now }
        requires route { AreDistinctStops problem.now route.now }
        ensures { OnOk result (self.new ≡ self.old
            ++ route_text problem.now routes.now verdict number route.now) }
    {
        let stops = stops_along(alloc, problem, route.as_slice())?;
        self.put_sized_head(problem, 1);
        self.put_title(problem, routes, verdict, number);
        self.put_map_and_table(
            alloc,
            problem,
            &stops,
            number,
            slice::from_ref(route),
            verdict,
        )
    }

    // Appends the head of a picture with this number of rows.
    fn put_sized_head(&mut self, problem: &Problem, rows: usize)
        ensures { self.new ≡ self.old ++ sized_head problem.now rows }
    {
        let grid = grid_of(problem.kind, rows);
        self.put_head(
            problem.kind,
            1130 + u128::from(grid.pitch) * grid.rows as u128,
        );
    }

    // Appends the map and the table of these stops and routes; the first route has the number `first`.
    #[tactic(auto, unfolding(crate::specs::Picture::map_and_table_text))]
    fn put_map_and_table(
        &mut self,
        alloc: Global,
        problem: &Problem,
        stops: &[Stop],
        first: u64,
        routes: &[Route],
        verdict: Verdict,
    ) -> Result<(), OutOfMemory>
        requires first { first ≤ 2 ^ 63 }
        requires routes { All (AreDistinctStops problem.now) routes.now }
        ensures { OnOk result (self.new ≡ self.old
            ++ map_and_table_text problem.now stops.now first routes.now verdict) }
    {
        let scene = Scene {
            problem,
            stops,
            first,
            routes,
            broken: broken_at(verdict),
        };
        self.put_map(alloc, &scene)?;
        self.put_rows(grid_of(problem.kind, routes.len()), &scene);
        self.put_days(problem, routes);
        Ok(())
    }
}
