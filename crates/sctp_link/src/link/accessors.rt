//! What a link tells of itself: its bytes, its counters, and the queues that it works on.

ghost use Rattle.std.specs.Prelude.{◌≡◌, ◌==◌, ℕ, None, Some, true, false, MatchOption, map, option_map};
ghost use Rattle.sctp_outbound.specs.payload_queue.PayloadQueue.{Payload};

use super::Link;
use sctp_queues::outbound_queue::OutboundQueue;
use sctp_queues::payload_queue::PayloadQueue;
use sctp_queues::reassembly_queue::ReassemblyQueue;
use sctp_receiver::replay;
use sctp_stream::stream::DataChannelStats;
use sctp_util::util::Checksum;

/// The bytes of all messages: each written one is pending, in flight or released.
#[derive(Clone, Copy, Debug, PartialEq, Eq)]
pub struct Ledger {
    /// The bytes of all accepted writes.
    pub written: u64,
    /// Those that wait to be sent.
    pub pending: u64,
    /// Those that were sent, and neither acknowledged nor abandoned.
    pub in_flight: u64,
    /// All others: acknowledged, expired or abandoned.
    pub released: u64,
}

impl<C: Checksum + Drop> Link<C> {
    ghost use Rattle.sctp_model.specs.Laws.{IsSetup};
    ghost use Rattle.sctp_model.specs.LinkRecord.{Setup};
    ghost use Rattle.sctp_model.specs.Messages.{is_open};
    ghost use Rattle.sctp_model.specs.Steps.{History, StandsFor};
    ghost use Rattle.sctp_model.specs.Amounts.{ledger, buffered_amount, counters_of};
    ghost use Rattle.sctp_model.specs.Receiver.{cumulative};
    ghost use Rattle.sctp_model.specs.Contents.{cumulative_tsn};
    ghost use Rattle.sctp_model.specs.Queues.{pending_of, in_flight_of, filter_of};
    ghost use Rattle.sctp_model.specs.refinement.Holds.{reassembly_of};
    ghost use Rattle.sctp_model.specs.refinement.Refines.{shown, in_flight_shown, filter_held, sending_of, sendings_of};
    ghost use Rattle.sctp_link.specs.Linked.{stats_of, ledger_of};

    /// There is a history that the link stands for, of a setup that a link may have: so each law of `sctp_model`
    /// that holds of every history speaks of this link. It does nothing.
    pub fn stands(&self)
        ensures { (setup : Setup) × (IsSetup setup
            × ((h : History) × StandsFor setup self.now.recorded h)) }
    {
        // the invariant of a link is known where a field is read
        let _limit = self.limit;
    }

    /// The bytes written, and what became of them.
    pub fn ledger(&self) -> Ledger
        ensures { result ≡ ledger_of (ledger self.now.recorded) }
    {
        let pending = self.sender.outbound().pending_bytes() as u64;
        let in_flight = self.sender.outbound().inflight_bytes() as u64;
        Ledger {
            written: self.written,
            pending,
            in_flight,
            released: self
                .written
                .saturating_sub(pending)
                .saturating_sub(in_flight),
        }
    }

    /// How many bytes of an open stream wait or are in flight; None where it is not open.
    pub fn buffered_amount(&self, stream: u16) -> Option<u64>
        ensures { result ≡ buffered_amount self.now.recorded stream }
    {
        let state = self.sender.stream(stream)?;
        Some(state.buffered_amount() as u64)
    }

    /// The counters of an open stream; None where it is not open.
    pub fn stats(&self, stream: u16) -> Option<DataChannelStats>
        ensures { result ≡ option_map stats_of (counters_of self.now.recorded stream) }
    {
        let state = self.sender.stream(stream)?;
        let sent = state.stats();
        let read = self.receiver.receiver().stats(stream)?;
        Some(DataChannelStats {
            stream_identifier: sent.stream_identifier,
            generation: sent.generation,
            messages_sent: sent.messages_sent,
            bytes_sent: sent.bytes_sent,
            messages_received: read.messages_received,
            bytes_received: read.bytes_received,
        })
    }

    /// What waits to be sent and what is in flight.
    pub fn outbound(&self) -> &OutboundQueue
        ensures pending { shown result.now.pending ≡ pending_of self.now.recorded }
        ensures in_flight { map in_flight_shown result.now.inflight.chunks
            ≡ in_flight_of self.now.recorded }
        // what a further sending of each says, with its stream, stream sequence number and flags, while it has its bytes
        ensures says { map sending_of result.now.inflight.chunks ≡ sendings_of self.now.recorded }
    {
        self.sender.outbound()
    }

    /// The TSNs that came beyond the cumulative one, and those that came again
    /// since the last SACK was made. Its chunks have no bytes.
    pub fn filter(&self) -> &PayloadQueue
        ensures { filter_held
            (cumulative_tsn self.now.recorded (cumulative self.now.recorded)) result.now
            ≡ filter_of self.now.recorded }
    {
        self.receiver.filter()
    }

    /// What came on an open stream and was not read; None where it is not open.
    pub fn reassembly(&self, stream: u16) -> Option<&ReassemblyQueue>
        ensures { MatchOption result (is_open self.now.recorded stream
            ≡ false) (λ q. (q.now.held ≡ reassembly_of self.now.recorded stream)
            × (q.now.si ≡ stream) × (q.now.max_message_size ≡ self.now.recorded.setup.largest)) }
    {
        replay::reassembly(self.receiver.receiver(), stream)
    }
}
