//! Numbers that are made up, the same in every run.

const FACTOR: u64 = 6_364_136_223_846_793_005;

const INCREMENT: u64 = 1_442_695_040_888_963_407;

/// Made-up numbers, one after another, by the number that they begin with.
#[derive(Drop)]
pub struct Draws {
    state: u64,
}

impl Draws {
    /// The numbers that begin with this one.
    pub fn new(seed: u64) -> Draws {
        Draws { state: seed }
    }

    /// A number below this one; 0 where that is 0.
    pub fn below(&mut self, limit: u32) -> u32 {
        self.state = self.state.wrapping_mul(FACTOR).wrapping_add(INCREMENT);
        let drawn = (self.state >> 33) as u32;
        drawn.checked_rem(limit).unwrap_or(0)
    }

    /// A number from the first to the last one; the first where that is the higher one.
    pub fn between(&mut self, first: u32, last: u32) -> u32 {
        let count = last.saturating_sub(first).saturating_add(1);
        first.saturating_add(self.below(count))
    }

    /// One of so many.
    pub fn is_one_in(&mut self, count: u32) -> bool {
        self.below(count) == 0
    }

    /// One of the words; none where there is none.
    pub fn word<'w>(&mut self, words: &[&'w str]) -> &'w str {
        let count = u32::try_from(words.len()).unwrap_or(u32::MAX);
        let place = self.below(count) as usize;
        words.get(place).copied().unwrap_or("")
    }
}
