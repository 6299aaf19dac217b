//! Examples that several crates of tests and programs share: the text of an instance, and routes as one list.
#![tactic(auto)]

use plan_types::{OutOfMemory, Route, Routes};
use std::alloc::Global;

/// Three customers, of whom one vehicle can serve at most two. The least distance of a plan is 30.
pub const THREE_CUSTOMERS: &[u8] = b"NAME : t3
TYPE : CVRP
DIMENSION : 4
EDGE_WEIGHT_TYPE : EUC_2D
CAPACITY : 10
NODE_COORD_SECTION
1 0 0
2 3 4
3 6 8
4 0 5
DEMAND_SECTION
1 0
2 6
3 4
4 5
DEPOT_SECTION
1
-1
EOF
";

/// Returns the routes of these stops, each ended by a 0.
pub fn routes_of(alloc: Global, stops: &[u32]) -> Result<Routes, OutOfMemory> {
    let mut routes = Routes::new(alloc);
    let mut route = Route::new(alloc);
    for stop in stops {
        if *stop > 0 {
            route.push(*stop)?;
        } else {
            routes.push(route)?;
            route = Route::new(alloc);
        }
    }
    Ok(routes)
}
