//! The map: pairs, legs, marks, rings and numbers.
ghost use Rattle.std.specs.Prelude.{◌≡◌, ◌≤◌, ◌^◌, ◌++◌, OnOk, is_some};
ghost use Rattle.std.specs.List.{flat_map};
ghost use Rattle.route_sched.specs.Route.{AreDistinctStops};
ghost use Rattle.plan_picture.specs.DrawnStops.{visits_of};
ghost use Rattle.plan_picture.specs.Map.{arrow_text, badge_text, box_size, box_text, baseline_of, has_arrow, is_delivery, join_text, label_text, labels_text, leg_head, leg_text, legs_text, line_head, line_text, lines_text, map_in, map_text, mark_text, marks_text, number_text, opening_text, upper_mark, upper_layer_text, pair_text, pairs_text, ring_text, rings_text, lower_mark, lower_shape, lower_layer_text};
ghost use Rattle.plan_picture.specs.Svg.{each};

use crate::drawn_stops::{stop_among, unserved};
use crate::frame::{Frame, Point, absolute_difference, stop_bounds};
use crate::labels::{Area, Label, LabelKind, labels};
use crate::scene::Scene;
use crate::svg::Svg;
use crate::tags::Tag;
use plan_types::{OutOfMemory, Problem, Stop};
use route_sched::Visits;
use std::alloc::Global;

impl Svg {
    /// Appends the map, an element `svg`.
    pub(crate) fn put_map(&mut self, alloc: Global, scene: &Scene) -> Result<(), OutOfMemory>
        ensures { let s = scene.now in OnOk result (self.new ≡ self.old
            ++ map_text s.problem.now s.stops.now s.first s.routes.now
            s.broken.route s.broken.stop) }
    {
        let problem = scene.problem;
        let frame = stop_bounds(&problem.depot, scene.stops).frame();
        self.put_map_in(alloc, &frame, scene)
    }

    #[tactic(auto, unfolding(crate::specs::Map::map_in))]
    fn put_map_in(&mut self, alloc: Global, frame: &Frame, scene: &Scene) -> Result<(), OutOfMemory>
        ensures { let s = scene.now in OnOk result (self.new ≡ self.old
            ++ map_in frame.now s.problem.now s.stops.now s.first s.routes.now
            s.broken.route s.broken.stop) }
    {
        self.put_lower_layer(frame, scene);
        self.put_upper_layer(alloc, frame, scene)
    }

    // Appends the lines.
    #[tactic(auto, unfolding(crate::specs::Map::lower_layer_text))]
    fn put_lower_layer(&mut self, frame: &Frame, scene: &Scene)
        ensures { let s = scene.now in self.new ≡ self.old
            ++ lower_layer_text s.problem.now frame.now s.stops.now s.first s.routes.now s.broken.route }
    {
        self.put_opening(frame);
        self.put_pairs(scene.problem, frame, scene.stops);
        self.put_lines(frame, scene);
    }

    // Appends what is drawn above the lines.
    #[tactic(auto, unfolding(crate::specs::Map::upper_layer_text))]
    fn put_upper_layer(
        &mut self,
        alloc: Global,
        frame: &Frame,
        scene: &Scene,
    ) -> Result<(), OutOfMemory>
        ensures { let s = scene.now in OnOk result (self.new ≡ self.old
            ++ upper_layer_text s.problem.now frame.now s.stops.now s.first s.routes.now s.broken.stop) }
    {
        let stops = scene.stops;
        let left = unserved(alloc, scene.routes, stops)?;
        let labels = labels(alloc, frame, scene)?;
        self.put_marks(scene.problem, frame, stops);
        self.put_rings(frame, stops, &left, scene.broken.stop);
        self.put_labels(frame, &labels);
        Ok(())
    }

    #[tactic(auto, unfolding(crate::specs::Map::opening_text))]
    fn put_opening(&mut self, frame: &Frame)
        ensures { self.new ≡ self.old ++ opening_text frame.now }
    {
        self.put_numbered(Tag::Map, frame.width);
        self.put_numbered(Tag::Blank, frame.height);
        self.put_attribute(Tag::Letters, frame.unit as u128);
        self.put(Tag::Open);
    }

    #[tactic(auto, unfolding(crate::specs::Map::pairs_text))]
    fn put_pairs(&mut self, problem: &Problem, frame: &Frame, stops: &[Stop])
        ensures { self.new ≡ self.old ++ pairs_text problem.now frame.now stops.now }
    {
        self.put(Tag::Pairs);
        self.put_each_pair(problem, frame, stops);
        self.put(Tag::GroupEnd);
    }

    fn put_each_pair(&mut self, problem: &Problem, frame: &Frame, stops: &[Stop])
        ensures { self.new ≡ self.old
            ++ flat_map (pair_text problem.now frame.now stops.now) stops.now }
    {
        for stop in stops {
            self.put_pair(problem, frame, stops, stop);
        }
    }

    // Appends the line between a delivery and its pickup.
    fn put_pair(&mut self, problem: &Problem, frame: &Frame, stops: &[Stop], stop: &Stop)
        ensures { self.new ≡ self.old ++ pair_text problem.now frame.now stops.now stop.now }
    {
        let Some(number) = problem.pickup_of(stop.number) else {
            return;
        };
        match stop_among(number, stops) {
            Some(pickup) => self.put_join(frame, pickup, stop),
            None => {}
        }
    }

    #[tactic(auto, unfolding(crate::specs::Map::join_text))]
    fn put_join(&mut self, frame: &Frame, start: &Stop, end: &Stop)
        ensures { self.new ≡ self.old ++ join_text frame.now start.now end.now }
    {
        self.put(Tag::Leg);
        self.put_at(frame.point(start));
        self.put_at(frame.point(end));
        self.put(Tag::LineEnd);
    }

    #[tactic(auto, unfolding(crate::specs::Map::lines_text))]
    fn put_lines(&mut self, frame: &Frame, scene: &Scene)
        ensures { let s = scene.now in self.new ≡ self.old
            ++ lines_text s.problem.now frame.now s.broken.route s.first s.routes.now }
    {
        self.put(Tag::Legs);
        self.put_each_line(frame, scene);
        self.put(Tag::GroupEnd);
    }

    fn put_each_line(&mut self, frame: &Frame, scene: &Scene)
        ensures { let s = scene.now in self.new ≡ self.old
            ++ each (line_text s.problem.now frame.now s.broken.route) s.first s.routes.now }
    {
        for (index, route) in scene.routes.iter().enumerate() {
            self.put_line(frame, scene, scene.first + index as u64, route.as_slice());
        }
    }

    // Appends the legs of a route.
    #[tactic(auto, unfolding(crate::specs::Map::line_text))]
    fn put_line(&mut self, frame: &Frame, scene: &Scene, number: u64, route: &[u32])
        requires { AreDistinctStops scene.now.problem.now route.now }
        ensures { let s = scene.now in self.new ≡ self.old
            ++ line_text s.problem.now frame.now s.broken.route number route.now }
    {
        let problem = scene.problem;
        self.put_line_head(scene.broken.route, number);
        self.put_legs(frame, &problem.depot, problem, route);
        self.put(Tag::GroupEnd);
    }

    #[tactic(auto, unfolding(crate::specs::Map::line_head))]
    fn put_line_head(&mut self, broken: u64, number: u64)
        ensures { self.new ≡ self.old ++ line_head broken number }
    {
        self.put(Tag::Route);
        self.put_broken(broken, number);
        self.put_colour(Tag::Stroke, number);
        self.put(Tag::Open);
    }

    fn put_legs(&mut self, frame: &Frame, depot: &Stop, problem: &Problem, route: &[u32])
        requires { AreDistinctStops problem.now route.now }
        ensures { self.new ≡ self.old
            ++ legs_text frame.now depot.now (visits_of problem.now route.now) }
    {
        let mut last = *depot;
        for visit in Visits::new(problem, route) {
            self.put_leg(frame, &last, &visit.stop);
            last = visit.stop;
        }
    }

    #[tactic(auto, unfolding(crate::specs::Map::leg_text))]
    fn put_leg(&mut self, frame: &Frame, start: &Stop, end: &Stop)
        ensures { self.new ≡ self.old ++ leg_text frame.now start.now end.now }
    {
        let from = frame.point(start);
        let to = frame.point(end);
        self.put(leg_head(start, end));
        self.put_at(from);
        self.put_arrow(frame, &from, &to);
        self.put_at(to);
        self.put(Tag::LineEnd);
    }

    // Appends the point of a leg's arrow, if the leg is long enough.
    fn put_arrow(&mut self, frame: &Frame, from: &Point, to: &Point)
        requires near { from.now.x ≤ 2 ^ 70 }
        requires high { from.now.y ≤ 2 ^ 70 }
        requires end_near { to.now.x ≤ 2 ^ 70 }
        requires end_high { to.now.y ≤ 2 ^ 70 }
        ensures { self.new ≡ self.old ++ arrow_text frame.now from.now to.now }
    {
        if has_arrow(frame, from, to) {
            self.put_at(from.arrow_point(to));
        }
    }

    #[tactic(auto, unfolding(crate::specs::Map::marks_text))]
    fn put_marks(&mut self, problem: &Problem, frame: &Frame, stops: &[Stop])
        ensures { self.new ≡ self.old ++ marks_text problem.now frame.now stops.now }
    {
        self.put_mark(Tag::DepotMark, frame, &problem.depot);
        self.put_lower_marks(problem, frame, stops);
        self.put_upper_marks(problem, frame, stops);
    }

    fn put_lower_marks(&mut self, problem: &Problem, frame: &Frame, stops: &[Stop])
        ensures { self.new ≡ self.old ++ flat_map (lower_mark problem.now frame.now) stops.now }
    {
        for stop in stops {
            self.put_lower_mark(problem, frame, stop);
        }
    }

    fn put_upper_marks(&mut self, problem: &Problem, frame: &Frame, stops: &[Stop])
        ensures { self.new ≡ self.old ++ flat_map (upper_mark problem.now frame.now) stops.now }
    {
        for stop in stops {
            self.put_upper_mark(problem, frame, stop);
        }
    }

    fn put_lower_mark(&mut self, problem: &Problem, frame: &Frame, stop: &Stop)
        ensures { self.new ≡ self.old ++ lower_mark problem.now frame.now stop.now }
    {
        if is_delivery(problem, stop) {
            return;
        }
        self.put_mark(lower_shape(problem, stop), frame, stop);
    }

    fn put_upper_mark(&mut self, problem: &Problem, frame: &Frame, stop: &Stop)
        ensures { self.new ≡ self.old ++ upper_mark problem.now frame.now stop.now }
    {
        if is_delivery(problem, stop) {
            self.put_mark(Tag::DeliveryMark, frame, stop);
        }
    }

    // Appends a shape at the stop, with the stop's number as its title.
    #[tactic(auto, unfolding(crate::specs::Map::mark_text))]
    fn put_mark(&mut self, shape: Tag, frame: &Frame, stop: &Stop)
        ensures { self.new ≡ self.old ++ mark_text shape frame.now stop.now }
    {
        self.put_placed(shape, frame.point(stop));
        self.put_numbered(Tag::MarkTitle, stop.number as u128);
        self.put(Tag::MarkEnd);
    }

    #[tactic(auto, unfolding(crate::specs::Map::rings_text))]
    fn put_rings(&mut self, frame: &Frame, stops: &[Stop], left: &[Stop], broken: u32)
        ensures { self.new ≡ self.old ++ rings_text frame.now stops.now left.now broken }
    {
        self.put_unserved(frame, left);
        self.put_ring(frame, stops, broken);
    }

    fn put_unserved(&mut self, frame: &Frame, left: &[Stop])
        ensures { self.new ≡ self.old ++ flat_map (mark_text Tag.UnservedMark frame.now) left.now }
    {
        for stop in left {
            self.put_mark(Tag::UnservedMark, frame, stop);
        }
    }

    fn put_ring(&mut self, frame: &Frame, stops: &[Stop], number: u32)
        ensures { self.new ≡ self.old ++ ring_text frame.now stops.now number }
    {
        match stop_among(number, stops) {
            Some(stop) => self.put_mark(Tag::BrokenMark, frame, stop),
            None => {}
        }
    }

    #[tactic(auto, unfolding(crate::specs::Map::labels_text))]
    fn put_labels(&mut self, frame: &Frame, labels: &[Label])
        ensures { self.new ≡ self.old ++ labels_text frame.now labels.now }
    {
        self.put(Tag::Labels);
        self.put_each_label(frame, labels);
        self.put(Tag::MapEnd);
    }

    fn put_each_label(&mut self, frame: &Frame, labels: &[Label])
        ensures { self.new ≡ self.old ++ flat_map (label_text frame.now) labels.now }
    {
        for label in labels {
            self.put_label(frame, label);
        }
    }

    fn put_label(&mut self, frame: &Frame, label: &Label)
        ensures { self.new ≡ self.old ++ label_text frame.now label.now }
    {
        match label.kind {
            LabelKind::Mark => {}
            LabelKind::Badge => self.put_badge(frame, label.number, &label.area),
            LabelKind::Number => {
                self.put_number_at(frame, Tag::Number, 2, label.number, &label.area)
            }
        }
    }

    #[tactic(auto, unfolding(crate::specs::Map::badge_text))]
    fn put_badge(&mut self, frame: &Frame, number: u64, area: &Area)
        ensures { self.new ≡ self.old ++ badge_text frame.now number area.now }
    {
        self.put_box(number, area);
        self.put_number_at(frame, Tag::Badge, 5, number, area);
    }

    #[tactic(auto, unfolding(crate::specs::Map::box_text))]
    fn put_box(&mut self, number: u64, area: &Area)
        ensures { self.new ≡ self.old ++ box_text number area.now }
    {
        let corner = Point {
            x: area.left,
            y: area.top,
        };
        self.put_placed(Tag::BadgeBox, corner);
        self.put_box_size(area);
        self.put_colour(Tag::Fill, number);
        self.put(Tag::Close);
    }

    #[tactic(auto, unfolding(crate::specs::Map::box_size))]
    fn put_box_size(&mut self, area: &Area)
        ensures { self.new ≡ self.old ++ box_size area.now }
    {
        self.put_attribute(Tag::Width, area.right.saturating_sub(area.left));
        self.put_attribute(Tag::Height, area.bottom.saturating_sub(area.top));
    }

    // Appends a number in its area.
    #[tactic(auto, unfolding(crate::specs::Map::number_text))]
    fn put_number_at(&mut self, frame: &Frame, text: Tag, k: u32, number: u64, area: &Area)
        ensures { self.new ≡ self.old ++ number_text frame.now text k number area.now }
    {
        let foot = baseline_of(frame, k, area);
        self.put_placed(text, foot);
        self.put_numbered(Tag::TagEnd, number as u128);
        self.put(Tag::TextEnd);
    }
}

// Returns the tag of a leg. A leg to or from the depot is pale.
fn leg_head(start: &Stop, end: &Stop) -> Tag
    ensures { result ≡ leg_head start.now end.now }
{
    if start.number == 0 || end.number == 0 {
        Tag::DepotLeg
    } else {
        Tag::Leg
    }
}

// Returns whether a leg is long enough for an arrow.
#[tactic(auto, unfolding(crate::specs::Map::has_arrow))]
fn has_arrow(frame: &Frame, from: &Point, to: &Point) -> bool
    ensures { result ≡ has_arrow frame.now from.now to.now }
{
    14 * u128::from(frame.unit)
        <= absolute_difference(from.x, to.x).max(absolute_difference(from.y, to.y))
}

fn is_delivery(problem: &Problem, stop: &Stop) -> bool
    ensures { result ≡ is_delivery problem.now stop.now }
{
    problem.pickup_of(stop.number).is_some()
}

// Returns the shape of a stop that is not a delivery.
fn lower_shape(problem: &Problem, stop: &Stop) -> Tag
    ensures { result ≡ lower_shape problem.now stop.now }
{
    if problem.partner_of(stop.number).is_some() {
        Tag::PickupMark
    } else {
        Tag::StopMark
    }
}

// Returns the baseline of a number: in the middle of its area, `k` quarters of the unit above its lower edge.
fn baseline_of(frame: &Frame, k: u32, area: &Area) -> Point
    ensures { result ≡ baseline_of frame.now k area.now }
{
    let half = area.right.saturating_sub(area.left) / 2;
    Point {
        x: area.right.saturating_sub(half),
        y: area.bottom.saturating_sub(frame.quarters(k)),
    }
}
