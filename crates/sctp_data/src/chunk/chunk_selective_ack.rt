//! SACK: what arrived.

ghost use Rattle.std.specs.Prelude.{◌≡◌, IfOk, IsOkUnless};
ghost use Rattle.sctp_util.specs.declared.error.Error.TheVariants.{ErrOutOfMemory};
ghost use Rattle.sctp_data.specs.SelectiveAck.{sack_of};

use sctp_util::error::Result;
use std::alloc::Global;
use std::fmt;

/// The bytes of the value before the blocks: TSN four, credit four, the counts of blocks and of duplicates two each.
pub const SELECTIVE_ACK_HEADER_SIZE: usize = 12;

/// A run of TSNs that arrived, by the distances of its first and its last from the cumulative TSN (RFC 4960 3.3.4).
#[derive(Clone, Copy, Debug, PartialEq, Eq)]
pub struct GapAckBlock {
    /// The distance of the first.
    pub start: u16,
    /// The distance of the last.
    pub end: u16,
}

impl fmt::Display for GapAckBlock {
    fn fmt<W: fmt::Write>(&self, f: &mut fmt::Formatter<W>) -> fmt::Result {
        write!(f, "{} - {}", self.start, self.end)
    }
}

/// Which TSNs arrived, and which of them arrived again (RFC 4960 3.3.4, type 3). The value is 12 bytes, then
/// the blocks and the duplicates, four bytes each, at most 16,379 of both together; what follows is ignored.
/// Refuses another type with `ErrChunkTypeNotSack`, a value of under 12 bytes, or
/// of fewer than its counts ask for, with `ErrSackSizeNotLargeEnoughInfo`.
#[derive(Debug, Drop)]
pub struct ChunkSelectiveAck {
    /// The last TSN up to which all arrived.
    pub cumulative_tsn_ack: u32,
    /// How many bytes of user data its sender has room for.
    pub advertised_receiver_window_credit: u32,
    /// The runs that arrived beyond it.
    pub gap_ack_blocks: Vec<GapAckBlock>,
    /// The TSNs that came again since the last SACK.
    pub duplicate_tsn: Vec<u32>,
}

impl fmt::Display for ChunkSelectiveAck {
    fn fmt<W: fmt::Write>(&self, f: &mut fmt::Formatter<W>) -> fmt::Result {
        write!(
            f,
            "SACK cumTsnAck={} arwnd={} dupTsn={:?}",
            self.cumulative_tsn_ack, self.advertised_receiver_window_credit, self.duplicate_tsn
        )?;
        for gap in &self.gap_ack_blocks {
            write!(f, "\n gap ack: {gap}")?;
        }
        Ok(())
    }
}

impl ChunkSelectiveAck {
    /// An equal acknowledgement. Refuses only for memory.
    pub fn try_clone(&self, alloc: Global) -> Result<Self>
        ensures ok { IfOk result (λ c. sack_of c ≡ sack_of self.now) }
        ensures memory { IsOkUnless result ErrOutOfMemory }
    {
        Ok(ChunkSelectiveAck {
            cumulative_tsn_ack: self.cumulative_tsn_ack,
            advertised_receiver_window_credit: self.advertised_receiver_window_credit,
            gap_ack_blocks: Vec::from_slice(alloc, &self.gap_ack_blocks)?,
            duplicate_tsn: Vec::from_slice(alloc, &self.duplicate_tsn)?,
        })
    }
}
