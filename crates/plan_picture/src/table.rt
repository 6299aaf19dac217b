//! The table under the map: a row for each route, with its colour and its values in columns. If the problem has
//! windows, the day of the vehicle is beside its row; otherwise the rows form three blocks.
ghost use Rattle.std.specs.Prelude.{◌≡◌, ◌+◌, ◌<◌, ◌^◌, ◌++◌};
ghost use Rattle.std.specs.Int.{int_max};
ghost use Rattle.route_sched.specs.Route.{AreDistinctStops};
ghost use Rattle.plan_picture.specs.DrawnStops.{visits_of};
ghost use Rattle.plan_picture.specs.Svg.{each};
ghost use Rattle.plan_picture.specs.Table.{columns_text, row_values_text, grid_of, heading_text, load_text, row_end, row_head, row_place, row_text, rows_text, top_load};

use crate::scene::Scene;
use crate::svg::Svg;
use crate::tags::Tag;
use crate::words::Word;
use plan_types::{Kind, Problem};
use route_sched::{Visit, Visits, route_distance};

/// The number of rows in a block of the table, and the distance between them.
#[derive(Clone, Copy)]
pub(crate) struct Grid {
    pub rows: usize,
    pub pitch: u32,
}

/// Returns the grid for this number of rows.
#[tactic(auto, unfolding(crate::specs::Table::grid_of))]
pub(crate) fn grid_of(kind: Kind, rows: usize) -> Grid
    ensures value { result ≡ grid_of kind rows }
    ensures some { 0 < result.rows }
{
    match kind {
        Kind::LiLim => Grid {
            rows: rows.max(1),
            pitch: 30,
        },
        Kind::Vrp => Grid {
            rows: rows.div_ceil(3).max(1),
            pitch: 20,
        },
    }
}

impl Svg {
    /// Appends a row of values for each route.
    #[tactic(auto, unfolding(crate::specs::Table::rows_text))]
    pub(crate) fn put_rows(&mut self, grid: Grid, scene: &Scene)
        requires { 0 < grid.rows }
        ensures { let s = scene.now in self.new ≡ self.old
            ++ rows_text s.problem.now grid s.broken.route s.first s.routes.now }
    {
        self.put(Tag::Table);
        self.put_each_row(grid, scene);
        self.put(Tag::GroupEnd);
    }

    fn put_each_row(&mut self, grid: Grid, scene: &Scene)
        requires { 0 < grid.rows }
        ensures { let s = scene.now in self.new ≡ self.old
            ++ each (row_text s.problem.now grid s.broken.route s.first) 0 s.routes.now }
    {
        for (index, route) in scene.routes.iter().enumerate() {
            self.put_row(grid, scene, index, route.as_slice());
        }
    }

    #[tactic(auto, unfolding(crate::specs::Table::row_text))]
    fn put_row(&mut self, grid: Grid, scene: &Scene, index: usize, route: &[u32])
        requires grid { 0 < grid.rows }
        requires number { scene.now.first + index < 2 ^ 64 }
        requires route { AreDistinctStops scene.now.problem.now route.now }
        ensures { let s = scene.now in self.new ≡ self.old
            ++ row_text s.problem.now grid s.broken.route s.first index route.now }
    {
        let number = scene.first + index as u64;
        self.put_row_place(grid, index);
        self.put_row_head(scene.broken.route, number);
        self.put_row_values(scene.problem, number, route);
        self.put_row_end(grid, index);
    }

    #[tactic(auto, unfolding(crate::specs::Table::row_place))]
    fn put_row_place(&mut self, grid: Grid, index: usize)
        requires { 0 < grid.rows }
        ensures { self.new ≡ self.old ++ row_place grid index }
    {
        let block = index / grid.rows;
        let row = index % grid.rows;
        self.put_numbered(Tag::Row, 390 * block as u128);
        self.put_numbered(Tag::Blank, 1116 + u128::from(grid.pitch) * row as u128);
    }

    #[tactic(auto, unfolding(crate::specs::Table::row_head))]
    fn put_row_head(&mut self, broken: u64, number: u64)
        ensures { self.new ≡ self.old ++ row_head broken number }
    {
        self.put_colour(Tag::RowColour, number);
        self.put(Tag::RowText);
        self.put_broken(broken, number);
    }

    #[tactic(auto, unfolding(crate::specs::Table::row_values_text))]
    fn put_row_values(&mut self, problem: &Problem, number: u64, route: &[u32])
        requires { AreDistinctStops problem.now route.now }
        ensures { self.new ≡ self.old ++ row_values_text problem.now number route.now }
    {
        self.put_numbered(Tag::RouteCell, number as u128);
        self.put_numbered(Tag::StopsCell, route.len() as u128);
        self.put_load(top_load(problem, route));
        self.put_numbered(Tag::DistanceCell, route_distance(problem, route) as u128);
    }

    #[tactic(auto, unfolding(crate::specs::Table::load_text))]
    fn put_load(&mut self, load: i64)
        ensures { self.new ≡ self.old ++ load_text load }
    {
        self.put(Tag::LoadCell);
        self.put_number(load);
    }

    #[tactic(auto, unfolding(crate::specs::Table::row_end))]
    fn put_row_end(&mut self, grid: Grid, index: usize)
        requires { 0 < grid.rows }
        ensures { self.new ≡ self.old ++ row_end grid index }
    {
        self.put(Tag::CellsEnd);
        self.put_heading(grid, index);
        self.put(Tag::GroupEnd);
    }

    // Appends the headings of the columns above the first row of each block.
    fn put_heading(&mut self, grid: Grid, index: usize)
        requires { 0 < grid.rows }
        ensures { self.new ≡ self.old ++ heading_text grid index }
    {
        if index % grid.rows == 0 {
            self.put_columns();
            self.put(Tag::HeadingEnd);
        }
    }

    #[tactic(auto, unfolding(crate::specs::Table::columns_text))]
    fn put_columns(&mut self)
        ensures { self.new ≡ self.old ++ columns_text }
    {
        self.put_tagged(Tag::HeadingRoute, Word::RouteColumn);
        self.put_tagged(Tag::HeadingStops, Word::StopsColumn);
        self.put_tagged(Tag::HeadingLoad, Word::LoadColumn);
        self.put_tagged(Tag::HeadingDistance, Word::DistanceColumn);
    }
}

// Returns the greatest load, at least 0.
fn top_load(problem: &Problem, route: &[u32]) -> i64
    requires { AreDistinctStops problem.now route.now }
    ensures { result ≡ top_load (visits_of problem.now route.now) }
{
    let mut top = 0;
    for visit in Visits::new(problem, route) {
        top = larger_load(top, &visit);
    }
    top
}

fn larger_load(top: i64, visit: &Visit) -> i64
    ensures { result ≡ int_max top visit.now.load }
{
    top.max(visit.load)
}
