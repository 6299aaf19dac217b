//! The random words of steps, and the plans that steps of the search find.
use crate::tests::builders::{Case, FOUR, TestProblem, case_of};
use crate::tests::step_ranges::{Example, StepRange, both, found_from, is_found};
use seeded_search::{pick, search_step, words};
use std::alloc::Global;
use std::test::Fail;

const SEED: u64 = 0x0123_4567_89ab_cdef;

/// The words of steps 0 and 1 with seed 0: RFC 8439, A.1, test vectors 1 and 2.
const ZERO_SEED_WORDS: [[u32; 16]; 2] = [
    [
        0xade0b876, 0x903df1a0, 0xe56a5d40, 0x28bd8653, 0xb819d2bd, 0x1aed8da0, 0xccef36a8,
        0xc70d778b, 0x7c5941da, 0x8d485751, 0x3fe02477, 0x374ad8b8, 0xf4b8436a, 0x1ca11815,
        0x69b687c3, 0x8665eeb2,
    ],
    [
        0xbee7079f, 0x7a385155, 0x7c97ba98, 0x0d082d73, 0xa0290fcb, 0x6965e348, 0x3e53c612,
        0xed7aee32, 0x7621b729, 0x434ee69c, 0xb03371d5, 0xd539d874, 0x281fed31, 0x45fb0a51,
        0x1f0ae1ac, 0x6f4d794b,
    ],
];

/// The words with `SEED` of the steps around 2^32 and of the last step. They come from another program: ChaCha20
/// of Python's package `cryptography`, whose 16-byte nonce begins with the block's number in 8 bytes.
const LATE_WORDS: [(u64, [u32; 16]); 3] = [
    (
        (1 << 32) - 1,
        [
            0x0f640ffb, 0x881a77cf, 0x60a36cb7, 0x18d41c4b, 0xeed5f6b9, 0xe7e84d72, 0x98dfcddd,
            0x8ee65a87, 0x0f992dca, 0x1cea7b94, 0xad597f22, 0xaffc7376, 0x0f86b093, 0xe468caf5,
            0x31d2569f, 0xe83bc784,
        ],
    ),
    (
        1 << 32,
        [
            0xc413d461, 0x829e0ef9, 0xd543b2ee, 0x4bb4ee94, 0x1a83c82a, 0x4abe6fc9, 0x36640111,
            0x217aa786, 0x12702368, 0xec837186, 0x92f721dc, 0x8e30e113, 0x208094e3, 0x7c8d3414,
            0x5f562862, 0x08059390,
        ],
    ),
    (
        (1 << 60) - 1,
        [
            0x9a8bde32, 0x56edd1bf, 0xa1f4897a, 0x606542e5, 0x3d78e099, 0x7c4abcde, 0xb8d8218e,
            0xdc0f6b0f, 0x4b5c65ad, 0xa6a4ea9c, 0x6e24049a, 0xf8cbc00e, 0x7fb24a19, 0xa1f723f3,
            0xddf43f46, 0x8117b9f5,
        ],
    ),
];

#[test]
fn words_of_the_zero_seed(rt: HostRuntime) {
    assert_eq!(rt; words(0, 0), ZERO_SEED_WORDS[0]);
    assert_eq!(rt; words(0, 1), ZERO_SEED_WORDS[1]);
}

#[test]
fn words_of_late_steps(rt: HostRuntime) {
    for (step, late) in LATE_WORDS {
        assert!(rt; step < 1 << 60);
        assert_eq!(rt; words(SEED, step), late, "{step}");
    }
}

#[test]
fn picks(rt: HostRuntime) {
    let [w0, w1, w2, w3, w4, ..] = words(0, 0);
    let picked = [
        pick(w0, 4),
        pick(w1, 3),
        pick(w2, 3),
        pick(w3, 3),
        pick(w4, 2),
    ];
    assert!(rt; picked == [2, 1, 2, 0, 1]);
    assert!(rt; pick(u32::MAX, u32::MAX) == u32::MAX - 1);
    assert!(rt; pick(u32::MAX, 1) == 0);
    assert!(rt; pick(0, u32::MAX) == 0);
}

// Returns the plans that the first step finds; nothing if the plan does not pass.
fn first_found(alloc: Global, case: &Case) -> Result<Vec<u32>, Fail> {
    if !case.is_passing(alloc)? {
        return Ok(Vec::new(alloc));
    }
    let Case {
        problem,
        pins,
        plan,
    } = case;
    let found = search_step(alloc, problem, pins, plan, plan, 0, 0, 0)?;
    let stops = both(alloc, &found);
    drop(found);
    stops
}

// Returns whether the first step finds the expected better plan, as incumbent and working plan.
fn is_bettered(alloc: Global) -> Result<bool, Fail> {
    let case = case_of(alloc, FOUR, &[], &[1, 0, 2, 3, 0, 4, 0, 0])?;
    let found = first_found(alloc, &case);
    drop(case);
    let better = [1, 0, 0, 4, 2, 3, 0, 0, 1, 0, 0, 4, 2, 3, 0, 0];
    Ok(found?.as_slice() == better.as_slice())
}

#[test]
fn one_step(rt: HostRuntime) -> Result<(), Fail> {
    assert!(rt; is_bettered(rt.alloc())?);
    Ok(())
}

const THREE: TestProblem = TestProblem::Customers(1_000, 3, &[(0, 10, 1), (1, 1, 1), (-1, -1, 1)]);

const BY_TWO: TestProblem = TestProblem::Customers(1_000, 2, &[(0, 10, 1), (6, 8, 1), (6, 0, 1)]);

const ONE: TestProblem = TestProblem::Customers(1_000, 1, &[(0, 10, 1)]);

const EXAMPLES: [Example; 6] = [
    // With two routes, the words of the first step pick the second one twice.
    (
        FOUR,
        &[],
        &[1, 0, 0, 4, 2, 3, 0, 0],
        StepRange::Search(0, (0, 1)),
        &[1, 0, 0, 4, 2, 3, 0, 0, 1, 0, 0, 4, 2, 3, 0, 0],
    ),
    // A worse plan is accepted within the deviation.
    (
        THREE,
        &[],
        &[1, 0, 2, 0, 3, 0],
        StepRange::Search(0, (0, 1)),
        &[1, 0, 2, 0, 3, 0, 1, 0, 2, 0, 3, 0],
    ),
    (
        THREE,
        &[],
        &[1, 0, 2, 0, 3, 0],
        StepRange::Search(1, (0, 1)),
        &[1, 0, 2, 0, 3, 0, 1, 0, 0, 3, 2, 0],
    ),
    // Without a movable request only the stops after two cuts can be exchanged. If the pins are whole routes, no
    // stop is after a cut.
    (
        BY_TWO,
        &[1, 3, 0, 2, 0],
        &[1, 3, 0, 2, 0],
        StepRange::Search(100, (0, 20)),
        &[1, 3, 0, 2, 0, 1, 3, 0, 2, 0],
    ),
    // Without a movable request there is no candidate, though one request is unplanned.
    (ONE, &[], &[0], StepRange::Search(0, (0, 20)), &[0, 0]),
    (
        ONE,
        &[],
        &[1, 0],
        StepRange::Search(0, (0, 20)),
        &[1, 0, 1, 0],
    ),
];

#[test]
fn steps(rt: HostRuntime) -> Result<(), Fail> {
    for example in &EXAMPLES {
        assert!(rt; is_found(rt.alloc(), example)?);
    }
    Ok(())
}

// Returns whether two steps in one call find the same plans as two calls of one step.
fn steps_continue(alloc: Global, first: u64) -> Result<bool, Fail> {
    let plan = [1, 0, 0, 4, 2, 3, 0, 0];
    let begun = found_from(alloc, FOUR, &[], &plan, StepRange::Search(0, (first, 1)))?;
    let (Some(best), Some(work)) = (begun.get(..8), begun.get(8..)) else {
        return Ok(false);
    };
    Ok(best == work && continues_from(alloc, first, &plan, best)?)
}

// Returns whether the second step, from the plans that the first one found, finds the same plans as both in one
// call.
fn continues_from(alloc: Global, first: u64, plan: &[u32], begun: &[u32]) -> Result<bool, Fail> {
    let next = StepRange::Search(0, (first.saturating_add(1), 1));
    let ended = found_from(alloc, FOUR, &[], begun, next)?;
    let at_once = found_from(alloc, FOUR, &[], plan, StepRange::Search(0, (first, 2)))?;
    Ok(ended == at_once)
}

#[test]
fn steps_continue_where_others_end(rt: HostRuntime) -> Result<(), Fail> {
    assert!(rt; steps_continue(rt.alloc(), 0)?);
    assert!(rt; steps_continue(rt.alloc(), (1 << 32) - 1)?);
    assert!(rt; steps_continue(rt.alloc(), (1 << 60) - 2)?);
    Ok(())
}
