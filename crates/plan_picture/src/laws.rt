//! Laws: what every picture contains, and that it is well-formed.
ghost use Rattle.plan_picture.specs.Laws.{LegsAreDrawn, PicturesAreWellFormed, RoutePicturesAreWellFormed, RoutesAreDrawn, RoutesAreKept, StopsAreMarked};

use plan_types::numbers_are_below_next_number;

/// States that each stop of the problem has its mark.
pub fn stops_are_marked()
    ensures { StopsAreMarked }
{
    numbers_are_below_next_number();
}

/// States that each route has its line, with each of its legs. If the stops of a route are known and distinct,
/// none of them is left out.
pub fn legs_are_drawn()
    ensures routes { RoutesAreDrawn }
    ensures kept { RoutesAreKept }
    ensures legs { LegsAreDrawn }
{}

/// States that each opened element is closed, in order, and that each attribute is quoted.
pub fn pictures_are_well_formed()
    ensures whole { PicturesAreWellFormed }
    ensures route { RoutePicturesAreWellFormed }
{}
