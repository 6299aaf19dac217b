//! The two units of the search: prices and loads. Sums wrap instead of overflowing, which no problem within the
//! limits comes near.
use std::ops::{Add, Sub};

/// The number of parts of the unit of distance in a price, so that a penalty can be a fraction of the unit.
const PARTS: i64 = 1024;

/// A distance, a penalty or a sum of these, in 1,024ths of the unit of distance.
#[derive(Clone, Copy, Default, PartialEq, Eq, PartialOrd, Ord)]
pub(crate) struct Price(i64);

impl Price {
    pub(crate) const ZERO: Price = Price(0);
    /// A price above that of all plans.
    pub(crate) const MAX: Price = Price(1 << 60);
    /// The least and the greatest penalty for a unit of overload.
    pub(crate) const LEAST_RATE: Price = Price(100);

    pub(crate) const GREATEST_RATE: Price = Price(100_000 * PARTS);

    /// Returns the price of a distance.
    #[inline]
    pub(crate) fn of_distance(distance: u32) -> Price {
        Price(i64::from(distance).wrapping_mul(PARTS))
    }

    /// Returns this percentage of the price.
    pub(crate) fn percent(self, percent: i64) -> Price {
        Price(self.0.wrapping_mul(percent) / 100)
    }

    /// Returns the price of one of that many equal parts, or the whole price if there are none.
    pub(crate) fn shared_by(self, parts: Load) -> Price {
        match self.0.checked_div(i64::from(parts.0)) {
            Some(part) => Price(part),
            None => self,
        }
    }
}

impl Add for Price {
    type Output = Price;

    #[inline]
    fn add(self, other: Price) -> Price {
        Price(self.0.wrapping_add(other.0))
    }
}

impl Sub for Price {
    type Output = Price;

    #[inline]
    fn sub(self, other: Price) -> Price {
        Price(self.0.wrapping_sub(other.0))
    }
}

/// The load of a vehicle.
#[derive(Clone, Copy, Default, PartialEq, Eq, PartialOrd, Ord)]
pub(crate) struct Load(pub i32);

impl Load {
    pub(crate) const ZERO: Load = Load(0);

    /// Returns by how much the load exceeds the capacity.
    #[inline]
    pub(crate) fn above(self, capacity: Load) -> Load {
        if self > capacity {
            self - capacity
        } else {
            Load::ZERO
        }
    }

    /// Returns the penalty for an overload of this size.
    #[inline]
    pub(crate) fn at_rate(self, rate: Price) -> Price {
        Price(i64::from(self.0).wrapping_mul(rate.0))
    }

    /// Returns one and a half times the load.
    pub(crate) fn and_a_half(self) -> Load {
        Load(self.0.wrapping_add(self.0 / 2))
    }

    /// Returns how many vehicles of this capacity carry the load at least.
    pub(crate) fn vehicles(self, capacity: Load) -> u32 {
        let whole = self.0.wrapping_add(capacity.0).wrapping_sub(1);
        match whole.checked_div(capacity.0) {
            Some(count) => u32::try_from(count).unwrap_or(0),
            None => 0,
        }
    }
}

impl Add for Load {
    type Output = Load;

    #[inline]
    fn add(self, other: Load) -> Load {
        Load(self.0.wrapping_add(other.0))
    }
}

impl Sub for Load {
    type Output = Load;

    #[inline]
    fn sub(self, other: Load) -> Load {
        Load(self.0.wrapping_sub(other.0))
    }
}
