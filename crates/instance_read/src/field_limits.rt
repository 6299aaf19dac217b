//! The limits of the numbers in a line, field by field, both inclusive. Those of coordinates, time windows and
//! service times are divided by the scale of the text.
//!
//! Sources: Li and Lim's benchmark instances, Solomon's and TSPLIB95 define the fields; `plan_types::limits`
//! defines their limits.
ghost use Rattle.std.specs.Prelude.{◌≡◌};
ghost use Rattle.instance_read.specs.Lilim.{task_limits};
ghost use Rattle.instance_read.specs.Scales.{coordinate_range, service_range, time_range};
ghost use Rattle.instance_read.specs.Solomon.{customer_limits};

use crate::scales::Scale;
use plan_types::limits::{
    MAX_CAPACITY, MAX_COORDINATE, MAX_DEMAND, MAX_FLEET, MAX_SERVICE, MAX_STOP_NUMBER, MAX_TIME,
};

/// The smallest and the greatest value of a field.
pub type Limits = (i32, i32);

const STOP_NUMBER: Limits = (0, MAX_STOP_NUMBER as i32);

/// Returns the limits of a coordinate, in any format.
pub fn coordinate_range(scale: Scale) -> Limits
    ensures { result ≡ coordinate_range scale }
{
    let most = scale.unscaled_limit(MAX_COORDINATE.unsigned_abs()) as i32;
    (-most, most)
}

fn time_range(scale: Scale) -> Limits
    ensures { result ≡ time_range scale }
{
    (0, scale.unscaled_limit(MAX_TIME) as i32)
}

fn service_range(scale: Scale) -> Limits
    ensures { result ≡ service_range scale }
{
    (0, scale.unscaled_limit(MAX_SERVICE) as i32)
}

/// The fleet and the capacity, in the first line of a Li-Lim text or in Solomon's format. The speed after them
/// in the former may be any number.
pub const HEADER: [Limits; 2] = [(1, MAX_FLEET as i32), CAPACITY];

/// Returns the limits of the fields of a Li-Lim task: number, x, y, demand, earliest, latest, service, pickup,
/// delivery.
pub fn task_limits(scale: Scale) -> [Limits; 9]
    ensures { result ≡ task_limits scale }
{
    let coordinate = coordinate_range(scale);
    let time = time_range(scale);
    [
        STOP_NUMBER,
        coordinate,
        coordinate,
        (-MAX_DEMAND, MAX_DEMAND),
        time,
        time,
        service_range(scale),
        STOP_NUMBER,
        STOP_NUMBER,
    ]
}

/// Returns the limits of the fields of a customer in Solomon's format: number, x, y, demand, ready, due, service.
pub fn customer_limits(scale: Scale) -> [Limits; 7]
    ensures { result ≡ customer_limits scale }
{
    let coordinate = coordinate_range(scale);
    let time = time_range(scale);
    [
        STOP_NUMBER,
        coordinate,
        coordinate,
        NODE_DEMAND,
        time,
        time,
        service_range(scale),
    ]
}

/// The greatest number of nodes of a `.vrp` text. The depot is a node too.
pub const MAX_NODES: u32 = MAX_STOP_NUMBER + 1;

/// The value of DIMENSION in a `.vrp` text.
pub const DIMENSION: Limits = (2, MAX_NODES as i32);

/// The capacity of a vehicle, in any format.
pub const CAPACITY: Limits = (0, MAX_CAPACITY as i32);

/// The demand of a node in a `.vrp` text, or of a customer in Solomon's format.
pub const NODE_DEMAND: Limits = (0, MAX_DEMAND);
