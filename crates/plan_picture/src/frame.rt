//! The position of the stops in the picture.
//!
//! The scale is the smallest whole number that makes the longer side at least 4000. Marks, lines and letters
//! are measured in `em`. The font size is the unit, a 400th of that side, rounded down.
ghost use Rattle.std.specs.Prelude.{◌≡◌, ◌≤◌, ◌^◌};
ghost use Rattle.std.specs.Int.{int_max, int_min};
ghost use Rattle.plan_picture.specs.Frame.{absolute_difference, bounds_at, bounds_of, framed, gap, arrow_point, point_of, scale_of, size_of, unit_of, widened};

use plan_types::Stop;

/// A point of the picture.
#[derive(Clone, Copy)]
pub(crate) struct Point {
    pub x: u128,
    pub y: u128,
}

/// The smallest and the greatest coordinates of stops.
#[derive(Clone, Copy)]
pub(crate) struct Bounds {
    pub left: i32,
    pub right: i32,
    pub bottom: i32,
    pub top: i32,
}

/// The mapping from coordinates to points: the corner from which coordinates count, and the scale.
#[derive(Clone, Copy)]
pub(crate) struct Frame {
    pub left: i32,
    pub top: i32,
    pub scale: u32,
    /// The unit of marks, lines and letters.
    pub unit: u64,
    pub width: u128,
    pub height: u128,
}

/// Returns the bounds of the depot and the stops.
#[tactic(auto, unfolding(crate::specs::Frame::bounds_of))]
pub(crate) fn stop_bounds(depot: &Stop, stops: &[Stop]) -> Bounds
    ensures { result ≡ bounds_of depot.now stops.now }
{
    let mut bounds = bounds_at(depot);
    for stop in stops {
        bounds = bounds.widened(stop);
    }
    bounds
}

// Returns the bounds of one stop.
fn bounds_at(stop: &Stop) -> Bounds
    ensures { result ≡ bounds_at stop.now }
{
    Bounds {
        left: stop.x,
        right: stop.x,
        bottom: stop.y,
        top: stop.y,
    }
}

fn smaller(x: &i32, y: &i32) -> i32
    ensures { result ≡ int_min x.now y.now }
{
    (*x).min(*y)
}

fn larger(x: &i32, y: &i32) -> i32
    ensures { result ≡ int_max x.now y.now }
{
    (*x).max(*y)
}

// Returns the distance between two coordinates.
fn gap(x: i32, y: i32) -> u32
    ensures { result ≡ gap x y }
{
    x.abs_diff(y)
}

impl Bounds {
    // Returns the bounds extended by one more stop.
    fn widened(&self, stop: &Stop) -> Bounds
        ensures { result ≡ widened self.now stop.now }
    {
        Bounds {
            left: smaller(&self.left, &stop.x),
            right: larger(&self.right, &stop.x),
            bottom: smaller(&self.bottom, &stop.y),
            top: larger(&self.top, &stop.y),
        }
    }

    #[tactic(auto, unfolding(crate::specs::Frame::size_of))]
    fn size(&self) -> u32
        ensures value { result ≡ size_of self.now }
        ensures some { 1 ≤ result }
    {
        let across = gap(self.left, self.right);
        let down = gap(self.top, self.bottom);
        across.max(down).max(1)
    }

    #[tactic(auto, unfolding(crate::specs::Frame::scale_of))]
    fn scale(&self) -> u32
        ensures { result ≡ scale_of self.now }
    {
        4000u32.div_ceil(self.size())
    }

    #[tactic(auto, unfolding(crate::specs::Frame::unit_of))]
    fn unit(&self) -> u64
        ensures { result ≡ unit_of self.now }
    {
        u64::from(self.scale()) * u64::from(self.size()) / 400
    }

    /// Returns the frame of these bounds.
    #[tactic(auto, unfolding(crate::specs::Frame::framed))]
    pub(crate) fn frame(&self) -> Frame
        ensures { result ≡ framed self.now }
    {
        let unit = self.unit();
        let scale = self.scale();
        let across = u128::from(scale) * u128::from(gap(self.left, self.right));
        let down = u128::from(scale) * u128::from(gap(self.top, self.bottom));
        Frame {
            left: self.left,
            top: self.top,
            scale,
            unit,
            width: across + 24 * u128::from(unit),
            height: down + 24 * u128::from(unit),
        }
    }
}

impl Frame {
    /// Returns the point of a stop.
    #[tactic(auto, unfolding(crate::specs::Frame::point_of))]
    pub(crate) fn point(&self, stop: &Stop) -> Point
        ensures place { result ≡ point_of self.now stop.now }
        ensures near { result.x ≤ 2 ^ 70 }
        ensures high { result.y ≤ 2 ^ 70 }
    {
        let scale = u128::from(self.scale);
        let room = 12 * u128::from(self.unit);
        Point {
            x: room + scale * u128::from(gap(stop.x, self.left)),
            y: room + scale * u128::from(gap(self.top, stop.y)),
        }
    }
}

/// Returns the difference of two numbers.
pub(crate) fn absolute_difference(m: u128, n: u128) -> u128
    ensures { result ≡ absolute_difference m n }
{
    m.saturating_sub(n).max(n.saturating_sub(m))
}

impl Point {
    /// Returns the point at three fifths of the line to `end`.
    pub(crate) fn arrow_point(&self, end: &Point) -> Point
        requires near { self.now.x ≤ 2 ^ 70 }
        requires high { self.now.y ≤ 2 ^ 70 }
        requires end_near { end.now.x ≤ 2 ^ 70 }
        requires end_high { end.now.y ≤ 2 ^ 70 }
        ensures { result ≡ arrow_point self.now end.now }
    {
        Point {
            x: (2 * self.x + 3 * end.x) / 5,
            y: (2 * self.y + 3 * end.y) / 5,
        }
    }
}
