//! Spans of time.
ghost use Rattle.std.specs.Prelude.{◌≡◌, ◌-ℤ◌, pos, false, IsTrue, MatchOption};
ghost use Rattle.cronplan.specs.Spans.{is_span};

/// The earliest second with which a span may begin: -9999-01-01T00:00:01 UTC.
pub const EARLIEST_FIRST: i64 = -377_705_116_799;

/// The latest second with which a span may end, which isn't in it: 9999-12-31T23:59:59 UTC.
pub const LATEST_END: i64 = 253_402_300_799;

/// The seconds from `first` up to but not including `end`, each counted from 1970-01-01T00:00:00 UTC. Where the two are equal, there is
/// none.
#[derive(Debug, Clone, Copy)]
pub struct Span {
    pub first: i64,
    pub end: i64,
    pub ghost held: { IsTrue (is_span first end) },
}

impl Span {
    /// The span from `first` up to but not including `end`. `None` if `end` is earlier than `first`, `first` is earlier than
    /// `EARLIEST_FIRST`, or `end` is later than `LATEST_END`. These two bound nearly the UTC years -9999 to 9999.
    pub fn new(first: i64, end: i64) -> Option<Span>
        ensures { MatchOption result (is_span first end ≡ false) (λ s. (s.first ≡ first) × (s.end ≡ end)) }
    {
        if EARLIEST_FIRST <= first && first <= end && end <= LATEST_END {
            Some(Span { first, end })
        } else {
            None
        }
    }

    /// The second up to which a search in the span goes: the one before its end. It is always `Some`.
    #[tactic(auto, using(crate::proofs::SpanSeconds::span_ends))]
    pub fn until(self) -> Option<i64>
        ensures { result ≡ Some (self.end -ℤ pos 1) }
    {
        Some(self.last())
    }

    // Its last second, or if it is empty the second before it.
    #[tactic(auto, using(crate::proofs::SpanSeconds::span_ends))]
    pub(crate) fn last(self) -> i64
        ensures { result ≡ self.end -ℤ pos 1 }
    {
        self.end - 1
    }
}
