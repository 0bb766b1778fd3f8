//! What a receiver answers, and how it takes a FORWARD-TSN.

/// Whether the TSN of a DATA chunk is new.
#[derive(Clone, Copy, Debug, PartialEq, Eq)]
pub enum Arrival {
    /// It is past the cumulative TSN, and did not come before.
    New {
        /// Whether a message of its stream became complete with it. An ordered one may still wait for those before it.
        complete: bool,
    },
    /// It came before, or is at or before the cumulative TSN, to which a FORWARD-TSN may have moved it.
    Repeat,
}

/// Whether a FORWARD-TSN moved the cumulative TSN.
#[derive(Clone, Copy, Debug, PartialEq, Eq)]
pub enum Forwarded {
    /// It was past what had come, and was followed.
    Skipped,
    /// It was not past what had come, and changed nothing.
    Stale,
}

/// What a FORWARD-TSN that names a stream that is not open comes to (RFC 3758 3.6).
#[derive(Clone, Copy, Debug, PartialEq, Eq)]
pub enum Closed {
    /// The name is of an invalid stream: the chunk is refused with `NamedStreamUnknown`. A stream that is opened later would wait for
    /// what was skipped.
    Refuse,
    /// The name is passed over: right for a stream that was closed on purpose.
    PassOver,
}
