//! The text after the cost line of a solution. `tests/texts.py` compares the explanations of verdicts and
//! faults.

use plan_explain::line_after_cost;

/// Solutions, and the number of the first line after the cost line of each that is not blank.
const AFTER_COST: [(&[u8], Option<u64>); 9] = [
    (b"", None),
    (b"Route #1: 1 2\nCost 20\n", None),
    (b"Route #1: 1 2\nCost 20\n\n \t\n", None),
    (b"Route #1: 1 2\nCost 20\nTime 3\n", Some(3)),
    (b"Cost 20\r\n\r\nRoute #1: 1 2\r\n", Some(3)),
    (b"Route #1: 1 2\nCOST:20\n\n\nCost 5\nx", Some(5)),
    (b"Cost 20 km\ncost 20\nx", Some(3)),
    (b"Cost far\nx", Some(2)),
    (b"Route #1: 1 2\nCosts 20\nx\n", None),
];

#[test]
fn finds_the_line_after_the_cost(rt: HostRuntime) {
    for (text, line) in &AFTER_COST {
        assert!(rt; line_after_cost(text) == *line);
    }
}
