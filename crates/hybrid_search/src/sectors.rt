//! Directions from the depot, and sectors between two directions. SWAP* compares only routes whose sectors
//! overlap.

/// Returns a direction from the depot: 0 to 65,535 for a full turn, in the order of the angles.
pub(crate) fn direction(x: i64, y: i64) -> u16 {
    let run = x.wrapping_abs();
    let rise = y.wrapping_abs();
    let Some(part) = rise.wrapping_mul(16383).checked_div(rise.wrapping_add(run)) else {
        return 0;
    };
    let turned = match (x < 0, y < 0) {
        (false, false) => part,
        (true, false) => 32767i64.wrapping_sub(part),
        (true, true) => 32768i64.wrapping_add(part),
        (false, true) => 65535i64.wrapping_sub(part),
    };
    u16::try_from(turned).unwrap_or(0)
}

/// The directions from one to another, counterclockwise.
#[derive(Clone, Copy, Default)]
pub(crate) struct Sector {
    start: u16,
    end: u16,
}

impl Sector {
    /// Returns the sector of one direction.
    pub(crate) fn new(direction: u16) -> Sector {
        Sector {
            start: direction,
            end: direction,
        }
    }

    /// Returns the sector with this direction too, extended at the nearer end.
    #[inline]
    pub(crate) fn with(self, direction: u16) -> Sector {
        if self.contains(direction) {
            return self;
        }
        let mut with = self;
        if direction.wrapping_sub(self.end) <= self.start.wrapping_sub(direction) {
            with.end = direction;
        } else {
            with.start = direction;
        }
        with
    }

    fn contains(self, direction: u16) -> bool {
        direction.wrapping_sub(self.start) <= self.end.wrapping_sub(self.start)
    }

    /// Returns whether the sectors share a direction.
    pub(crate) fn overlaps(self, other: Sector) -> bool {
        self.contains(other.start) || other.contains(self.start)
    }
}
