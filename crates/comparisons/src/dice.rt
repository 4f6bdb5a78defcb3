//! Dice.

/// Dice that fall the same way at each run of a seed (Knuth's multiplier for 64 bits).
#[derive(Drop)]
pub(crate) struct Dice {
    state: u64,
}

impl Dice {
    pub(crate) fn new(seed: u64) -> Dice {
        Dice { state: seed }
    }

    /// A number below that of the sides, or 0 where there are none.
    pub(crate) fn roll(&mut self, sides: u64) -> u64 {
        let next = self.state.wrapping_mul(6364136223846793005);
        self.state = next.wrapping_add(1442695040888963407);
        (self.state >> 33).checked_rem(sides).unwrap_or(0)
    }

    /// Any of some, where there are any.
    pub(crate) fn pick<'a, T>(&mut self, some: &'a [T]) -> Option<&'a T> {
        let place = self.roll(some.len() as u64) as usize;
        some.get(place)
    }

    /// Any of the words.
    pub(crate) fn word<'a>(&mut self, words: &'a str) -> &'a str {
        let count = words.split_ascii_whitespace().count() as u64;
        let place = self.roll(count) as usize;
        words.split_ascii_whitespace().nth(place).unwrap_or("")
    }
}
