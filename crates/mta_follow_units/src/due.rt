//! Which unit may come next.

/// Which unit may come next. Records are counted from 1.
#[derive(Clone, Copy)]
pub enum Due {
    /// To a standby that has got so many records: the next one, or that these were all.
    Record { got: u64 },
    /// To the agent that has put so many records: that the last of them is kept.
    Kept { number: u64 },
}
