//! Draws from a word: the item that it picks, and the rest of the word for the next draw.
ghost use Rattle.std.specs.Prelude.{◌≡◌, ◌≤◌, ◌-◌};
ghost use Rattle.anneal_search.specs.Draws.{pick, rest};

/// The item that a word draws, and the rest of the word.
#[derive(Clone, Copy, Debug, PartialEq, Eq)]
pub struct DrawnItem {
    /// The index of the item, from 0.
    pub number: usize,
    /// The unused part of the random word. The next draw takes from it.
    pub rest: u32,
}

/// Draws one of `things` items, 1 or more: the whole part of `word * things / 2^32`. The rest is `word * things`
/// mod 2^32.
pub fn draw(word: u32, things: usize) -> DrawnItem
    ensures number { result.number ≡ pick word things }
    ensures rest { result.rest ≡ rest word things }
    ensures bound { result.number ≤ things - 1 }
{
    let product = u128::from(word) * things as u128;
    DrawnItem {
        number: (product >> 32) as usize,
        rest: (product % (1 << 32)) as u32,
    }
}
