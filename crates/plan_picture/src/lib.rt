//! A plan as an SVG picture: the depot, the stops with their numbers, each route with its direction, a table of
//! the routes, and the day of each vehicle.
//!
//! `draw` draws a plan for the `draw` subcommand of `planner_cli`, `draw_route` a single route, larger.
//!
//! Coordinates count from the smallest x and the greatest y and are multiplied by one whole number, so no
//! computed number has a fraction.
//!
//! Violations are drawn too. For each route the picture has the stops that the problem knows, each at its first
//! place. The route that the verdict names has a dashed line and a red row, its stop has a ring, and the rule
//! is in words above the map. Unserved stops are ringed and counted.
//!
//! The number of a route or a stop takes the first free position around its mark, where it covers no mark and
//! no earlier number. If there is none, the number is left out.
//!
//! Source: SVG 2 for the elements; the design is this project's own. Loads, starts and distances are those of
//! `route_sched`. The look is judged by eye (`examples/lc101.svg`).
//!
//! Modules, in reading order:
//! - `styles`, `tags`, `words`: the styles, the elements, and the words for people
//! - `svg`: the text of a picture, piece by piece
//! - `frame`: the position of the stops
//! - `drawn_stops`: the stops that are drawn, and the part of a route that is drawn
//! - `scene`: the contents of a picture
//! - `labels`: the positions of numbers
//! - `map`: pairs, legs, marks and numbers
//! - `table`: a row of values for each route
//! - `days`: a chart of when each vehicle drives, waits and serves
//! - `heads`: the text above the map
//! - `drawing`: `draw` and `draw_route`, the whole pictures
//! - `laws`: the contents of every picture
//!
//! Proved: `draw` and `draw_route` return exactly the bytes of the definitions in `specs/Picture.antt`, or
//! memory runs out. Each stop of the problem has its mark, at its coordinates scaled by a whole number, and
//! each route has its line with each of its legs. Each opened element is closed in order and each attribute has
//! a quoted value (`specs/WellFormed.antt`). That no attribute appears twice in a tag is only tested, by
//! `tests/picture.py`.
#![tactic(auto)]

mod days;
mod drawing;
mod drawn_stops;
mod frame;
mod heads;
mod labels;
mod laws;
mod map;
mod scene;
mod styles;
mod svg;
mod table;
mod tags;
mod words;

pub use drawing::{draw, draw_route};
pub use laws::{legs_are_drawn, pictures_are_well_formed, stops_are_marked};
