//! Phrases: which values of a field are named.

/// A part of a phrase. Each names some of the values of a field, from its least to its greatest.
#[derive(Debug, Clone, Copy)]
pub enum Piece {
    /// Each value of the field.
    Every,
    /// Each nth value of the whole field, from its least on. The number divides how many values the field has, so the steps stay
    /// even from one hour, day or year to the next. If it doesn't divide that, no value is named.
    EveryNth(u16),
    /// One value.
    One(u16),
    /// Each value from the first to the last.
    Range(u16, u16),
    /// The first value, and each nth from it on, up to the last. The numbers are the first, the last, and n.
    RangeNth(u16, u16, u16),
}

/// Which values of a field are named: those of its pieces. A phrase without a piece names nothing.
#[derive(Debug)]
pub struct Phrase {
    /// The pieces, in the order in which they are written. In a phrase of [`Summary::of`](crate::Summary::of) each lies in its field,
    /// their values rise, with Sunday after Saturday unless a range begins with it, and none is named twice.
    pub pieces: Vec<Piece>,
}

// By hand, so that a function that drops a phrase calls this one.
impl Drop for Phrase {
    fn drop(self) {
        let Phrase { pieces: _ } = self;
    }
}
