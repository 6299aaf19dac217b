//! Draws from lists by the words of a step.
ghost use Rattle.std.specs.Prelude.{◌≡◌, ◌+◌, ◌<◌, ◌^◌, IfOk, length};
ghost use Rattle.seeded_search.specs.Words.{pick};
ghost use Rattle.seeded_search.specs.Steps.{picked, drawn};
ghost use Rattle.seeded_search.specs.Draws.{index_of};

use plan_types::OutOfMemory;
use std::alloc::Global;

/// Returns the index of the thing that the word picks, for any number of things.
pub(crate) fn place(word: u32, things: usize) -> usize
    ensures value { result ≡ pick word things }
    ensures bound { 0 < things → result < things }
{
    ((u128::from(word) * things as u128) >> 32) as usize
}

/// Returns the number that the word picks from the list.
pub(crate) fn picked(word: u32, numbers: &[u32]) -> Option<u32>
    ensures { result ≡ picked word numbers.now }
{
    numbers.get(place(word, numbers.len())).copied()
}

/// Returns the vehicle that the word picks from the list.
pub(crate) fn picked_vehicle(word: u32, vehicles: &[u64]) -> Option<u64>
    ensures { result ≡ picked word vehicles.now }
{
    vehicles.get(place(word, vehicles.len())).copied()
}

/// Returns the numbers that the words draw, one after another and none twice. If there are more words than
/// numbers, it returns all numbers. There may be many numbers but there are few words, so the indices drawn are
/// kept instead of a copy of the numbers.
pub(crate) fn drawn(alloc: Global, words: &[u32], numbers: &[u32]) -> Result<Vec<u32>, OutOfMemory>
    ensures { IfOk result (λ names. names.items ≡ drawn words.now numbers.now) }
{
    let mut taken = Vec::with_capacity(alloc, words.len())?;
    let mut names = Vec::with_capacity(alloc, words.len())?;
    for word in words {
        if numbers.len() <= taken.len() {
            return Ok(names);
        }
        let index = place(*word, numbers.len() - taken.len());
        names.push(numbers[index_of(&taken, index)])?;
        taken.insert(0, index)?;
    }
    Ok(names)
}

// Converts an index among the remaining numbers to the index among all numbers. `taken` has the indices drawn
// before, the newest first. Each is an index among the numbers that remained then.
fn index_of(taken: &[usize], index: usize) -> usize
    requires { index + length taken.now < 2 ^ 64 }
    ensures { result ≡ index_of taken.now index }
{
    let mut whole = index;
    for older in taken {
        if *older <= whole {
            whole += 1;
        }
    }
    whole
}
