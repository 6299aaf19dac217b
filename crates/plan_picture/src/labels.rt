//! The positions of the numbers of routes and stops, so that none covers a mark or another number.
//!
//! The numbers of routes are placed first, then those of stops in ascending order. Each takes the first free
//! position of four: above a mark, to its right, below it, or to its left.
ghost use Rattle.std.specs.Prelude.{◌≡◌, ◌≤◌, ◌^◌, [], IfOk, OnOk, Some};
ghost use Rattle.plan_picture.specs.Labels.{area_of, area_on, span_around, badge_area, badge_extent, span_before, span_after, covers, free_along, free_area, is_free, is_within, labels_of, mark_labels, with_label, number_extent, overlaps, quarters, with_badges, with_marks, with_numbers};

use crate::drawn_stops::stops_along;
use crate::frame::Frame;
use crate::scene::Scene;
use crate::svg::digits;
use plan_types::{OutOfMemory, Stop};
use std::alloc::Global;

/// An interval of the map's width or height.
#[derive(Clone, Copy)]
pub(crate) struct Span {
    pub first: u128,
    pub last: u128,
}

/// A rectangle of the map.
#[derive(Clone, Copy)]
pub(crate) struct Area {
    pub left: u128,
    pub right: u128,
    pub top: u128,
    pub bottom: u128,
}

/// Half the width and half the height of a number, and its distance from the middle of its mark, in quarters of
/// the unit.
#[derive(Clone, Copy)]
pub(crate) struct Extent {
    pub across: u32,
    pub down: u32,
    pub gap: u32,
}

/// The kinds of things that occupy the map.
#[derive(Clone, Copy)]
pub(crate) enum LabelKind {
    /// The mark of a stop or of the depot.
    Mark,
    /// The number of a route.
    Badge,
    /// The number of a stop.
    Number,
}

/// A mark or a number, and its area.
#[derive(Clone, Copy)]
pub(crate) struct Label {
    pub kind: LabelKind,
    pub number: u64,
    pub area: Area,
}

/// Returns the marks, and the numbers of routes and stops that found a free area.
pub(crate) fn labels(alloc: Global, frame: &Frame, scene: &Scene) -> Result<Vec<Label>, OutOfMemory>
    ensures { let s = scene.now in IfOk result (λ labels. labels.items
        ≡ labels_of s.problem.now frame.now s.first s.routes.now s.stops.now) }
{
    let problem = scene.problem;
    let mut labels = Vec::new(alloc);
    add_marks(&mut labels, frame, &problem.depot, scene.stops)?;
    add_badges(alloc, &mut labels, frame, scene)?;
    add_numbers(&mut labels, frame, scene.stops)?;
    Ok(labels)
}

fn add_label(
    labels: &mut Vec<Label>,
    kind: LabelKind,
    number: u64,
    area: Option<Area>,
) -> Result<(), OutOfMemory>
    ensures { OnOk result (labels.new.items ≡ with_label labels.old.items kind number area) }
{
    match area {
        Some(area) => labels.push(Label { kind, number, area })?,
        None => {}
    }
    Ok(())
}

fn add_marks(
    labels: &mut Vec<Label>,
    frame: &Frame,
    depot: &Stop,
    stops: &[Stop],
) -> Result<(), OutOfMemory>
    requires { labels.old.items ≡ [] }
    ensures { OnOk result (labels.new.items ≡ mark_labels frame.now depot.now stops.now) }
{
    add_label(labels, LabelKind::Mark, 0, Some(frame.area_on(17, depot)))?;
    add_each_mark(labels, frame, stops)
}

fn add_each_mark(labels: &mut Vec<Label>, frame: &Frame, stops: &[Stop]) -> Result<(), OutOfMemory>
    ensures { OnOk result (labels.new.items ≡ with_marks frame.now labels.old.items stops.now) }
{
    for stop in stops {
        let area = frame.area_on(10, stop);
        add_label(labels, LabelKind::Mark, u64::from(stop.number), Some(area))?;
    }
    Ok(())
}

fn add_badges(
    alloc: Global,
    labels: &mut Vec<Label>,
    frame: &Frame,
    scene: &Scene,
) -> Result<(), OutOfMemory>
    ensures { let s = scene.now in OnOk result (labels.new.items
        ≡ with_badges s.problem.now frame.now labels.old.items s.first s.routes.now) }
{
    for (index, route) in scene.routes.iter().enumerate() {
        let number = scene.first + index as u64;
        let stops = stops_along(alloc, scene.problem, route.as_slice())?;
        let area = frame.badge_area(labels.as_slice(), number, &stops);
        add_label(labels, LabelKind::Badge, number, area)?;
    }
    Ok(())
}

fn add_numbers(labels: &mut Vec<Label>, frame: &Frame, stops: &[Stop]) -> Result<(), OutOfMemory>
    ensures { OnOk result (labels.new.items ≡ with_numbers frame.now labels.old.items stops.now) }
{
    for stop in stops {
        let number = u64::from(stop.number);
        let area = frame.free_area(labels.as_slice(), &number_extent(number), stop);
        add_label(labels, LabelKind::Number, number, area)?;
    }
    Ok(())
}

fn number_extent(number: u64) -> Extent
    ensures value { result ≡ number_extent number }
    ensures across { result.across ≤ 400 }
    ensures down { result.down ≤ 400 }
    ensures gap { result.gap ≤ 400 }
{
    Extent {
        across: 5 * digits(number),
        down: 8,
        gap: 12,
    }
}

fn badge_extent(number: u64) -> Extent
    ensures value { result ≡ badge_extent number }
    ensures across { result.across ≤ 400 }
    ensures down { result.down ≤ 400 }
    ensures gap { result.gap ≤ 400 }
{
    Extent {
        across: 8 * digits(number) + 6,
        down: 12,
        gap: 14,
    }
}

fn area_of(across: Span, down: Span) -> Area
    ensures { result ≡ area_of across down }
{
    Area {
        left: across.first,
        right: across.last,
        top: down.first,
        bottom: down.last,
    }
}

impl Area {
    // Returns whether two areas overlap.
    fn overlaps(&self, other: &Area) -> bool
        ensures { result ≡ overlaps self.now other.now }
    {
        self.left < other.right
            && other.left < self.right
            && self.top < other.bottom
            && other.top < self.bottom
    }

    // Returns whether the area overlaps a mark or a number that was placed before.
    fn covers(&self, labels: &[Label]) -> bool
        ensures { result ≡ covers self.now labels.now }
    {
        for label in labels {
            if self.overlaps(&label.area) {
                return true;
            }
        }
        false
    }
}

impl Frame {
    /// Returns k quarters of the unit.
    pub(crate) fn quarters(&self, k: u32) -> u128
        ensures value { result ≡ quarters self.now k }
        ensures bound { result ≤ 2 ^ 96 }
    {
        u128::from(k) * u128::from(self.unit) / 4
    }

    // Returns the interval from k quarters before a coordinate to k quarters after it.
    fn span_around(&self, k: u32, at: u128) -> Span
        requires { at ≤ 2 ^ 70 }
        ensures { result ≡ span_around self.now k at }
    {
        Span {
            first: at.saturating_sub(self.quarters(k)),
            last: at + self.quarters(k),
        }
    }

    // Returns the interval that ends a gap before a coordinate and is twice `half` long.
    fn span_before(&self, gap: u32, half: u32, at: u128) -> Span
        requires gap { gap ≤ 400 }
        requires half { half ≤ 400 }
        ensures { result ≡ span_before self.now gap half at }
    {
        Span {
            first: at.saturating_sub(self.quarters(gap + 2 * half)),
            last: at.saturating_sub(self.quarters(gap)),
        }
    }

    // Returns the interval that begins a gap after a coordinate and is twice `half` long.
    fn span_after(&self, gap: u32, half: u32, at: u128) -> Span
        requires gap { gap ≤ 400 }
        requires half { half ≤ 400 }
        requires at { at ≤ 2 ^ 70 }
        ensures { result ≡ span_after self.now gap half at }
    {
        Span {
            first: at + self.quarters(gap),
            last: at + self.quarters(gap + 2 * half),
        }
    }

    // Returns the area of a mark.
    fn area_on(&self, k: u32, stop: &Stop) -> Area
        ensures { result ≡ area_on self.now k stop.now }
    {
        let point = self.point(stop);
        area_of(self.span_around(k, point.x), self.span_around(k, point.y))
    }

    fn is_within(&self, area: &Area) -> bool
        ensures { result ≡ is_within self.now area.now }
    {
        0 < area.left && area.right <= self.width && 0 < area.top && area.bottom <= self.height
    }

    // Returns whether an area is within the frame and covers nothing that was placed before.
    #[tactic(auto, unfolding(crate::specs::Labels::is_free))]
    fn is_free(&self, labels: &[Label], area: &Area) -> bool
        ensures { result ≡ is_free self.now labels.now area.now }
    {
        self.is_within(area) && !area.covers(labels)
    }

    // Returns the first free area around a mark.
    #[tactic(auto, unfolding(crate::specs::Labels::free_area))]
    fn free_area(&self, labels: &[Label], extent: &Extent, stop: &Stop) -> Option<Area>
        requires across { extent.now.across ≤ 400 }
        requires down { extent.now.down ≤ 400 }
        requires gap { extent.now.gap ≤ 400 }
        ensures { result ≡ free_area self.now labels.now extent.now stop.now }
    {
        let point = self.point(stop);
        let across = self.span_around(extent.across, point.x);
        let down = self.span_around(extent.down, point.y);
        let above = area_of(across, self.span_before(extent.gap, extent.down, point.y));
        if self.is_free(labels, &above) {
            return Some(above);
        }
        let right = area_of(self.span_after(extent.gap, extent.across, point.x), down);
        if self.is_free(labels, &right) {
            return Some(right);
        }
        let below = area_of(across, self.span_after(extent.gap, extent.down, point.y));
        if self.is_free(labels, &below) {
            return Some(below);
        }
        let left = area_of(self.span_before(extent.gap, extent.across, point.x), down);
        if self.is_free(labels, &left) {
            return Some(left);
        }
        None
    }

    // Returns the first free area around any of these stops.
    fn free_along(&self, labels: &[Label], extent: &Extent, stops: &[Stop]) -> Option<Area>
        requires across { extent.now.across ≤ 400 }
        requires down { extent.now.down ≤ 400 }
        requires gap { extent.now.gap ≤ 400 }
        ensures { result ≡ free_along self.now labels.now extent.now stops.now }
    {
        for stop in stops {
            if let Some(area) = self.free_area(labels, extent, stop) {
                return Some(area);
            }
        }
        None
    }

    // Returns the area for the number of a route: at a stop from the middle of the route on, otherwise at an
    // earlier stop.
    fn badge_area(&self, labels: &[Label], number: u64, stops: &[Stop]) -> Option<Area>
        ensures { result ≡ badge_area self.now labels.now number stops.now }
    {
        let extent = badge_extent(number);
        let middle = stops.len() / 2;
        match self.free_along(labels, &extent, &stops[middle..]) {
            Some(area) => Some(area),
            None => self.free_along(labels, &extent, &stops[..middle]),
        }
    }
}
