//! The sum of answers.

/// The factor by which the sum is multiplied before an answer is added.
const FACTOR: u64 = 1_000_003;

/// How many answers there were, and their sum.
///
/// Each answer is a number. The sum is 0 at first, and each answer in turn makes it `sum * 1000003 + answer`, modulo 2^64;
/// a negative answer is added in two's complement. So the sum depends on each answer and on their order.
#[derive(Clone, Copy, Default, PartialEq, Eq)]
pub struct Answers {
    pub count: u32,
    pub sum: u64,
}

impl Answers {
    /// Adds an answer.
    pub fn add(&mut self, answer: i64) {
        self.count = self.count.saturating_add(1);
        self.sum = self.sum.wrapping_mul(FACTOR).wrapping_add_signed(answer);
    }

    /// Adds each byte of a text.
    pub fn add_text(&mut self, text: &str) {
        for byte in text.as_bytes() {
            self.sum = self.sum.wrapping_mul(FACTOR).wrapping_add(u64::from(*byte));
        }
        self.count = self.count.saturating_add(1);
    }
}
