//! What a replay of a record does with a receiver beside its own calls: it tests nothing that the record does not answer for, and looks
//! at what the receiver holds.

ghost use Rattle.std.specs.Prelude.{◌≡◌, ◌+◌, ◌≤◌, IfOk, IfErr, length, option_copied, option_map};
ghost use Rattle.sctp_data.specs.ForwardTsn.{forward_tsn_of};
ghost use Rattle.sctp_data.specs.SelectiveAck.{sack_of};
ghost use Rattle.sctp_receiver.specs.Calls.{SkipsByNames, TakesDataEach};
ghost use Rattle.sctp_receiver.specs.Receiver.{filter_of, stream_of, sack};
ghost use Rattle.sctp_receiver.specs.TsnFilter.{has_come};
ghost use Rattle.sctp_receiver.specs.declared.receiver.refusal.ReceiverRefusal.TheVariants.{OutOfMemory};

use crate::receiver::Receiver;
use crate::receiver::arrival::{Arrival, Forwarded};
use crate::receiver::inbound_streams::InboundStream;
use crate::receiver::refusal::ReceiverRefusal;
use crate::receiver::sack_out::MAX_SACK_ENTRIES;
use sctp_data::chunk::chunk_forward_tsn::ChunkForwardTsn;
use sctp_data::chunk::chunk_payload_data::ChunkPayloadData;
use sctp_data::chunk::chunk_selective_ack::ChunkSelectiveAck;
use sctp_reassembly::reassembly_queue::ReassemblyQueue;
use sctp_serial::turns::Turns;

/// Takes the DATA chunks of a packet one after another, each as `Receiver::data` does but for `SsnTooFar`: ordered ones of any stream sequence
/// number, as a record has them. It takes all or none: the first one that is refused refuses them all, with its refusal, and the receiver
/// is as it was before the first chunk. `OutOfMemory` may come in the place of any other, since room for the answers is taken before.
/// A peer's datagrams go to `Receiver::data`, chunk by chunk: that takes nothing back.
pub fn data_each_with_any_ssn(
    receiver: &mut Receiver,
    chunks: &[ChunkPayloadData],
) -> Result<Vec<Arrival>, ReceiverRefusal>
    ensures { TakesDataEach chunks.now receiver.old receiver.new result }
{
    receiver.take_all(chunks)
}

/// Takes a FORWARD-TSN by what it names alone: it tests no name, and passes over names of streams that are not open. An incomplete
/// ordered message that no name covers stays, and those behind it wait; `Receiver::forward_tsn` discards it too. Refuses with
/// `TsnOpposite`, and changes nothing then. It takes no memory.
pub fn forward_tsn_by_names(
    receiver: &mut Receiver,
    chunk: &ChunkForwardTsn,
) -> Result<Forwarded, ReceiverRefusal>
    ensures { SkipsByNames (forward_tsn_of chunk.now) receiver.old receiver.new result }
{
    receiver.follow_names(chunk, &mut Turns::new(), &mut Turns::new())
}

/// The SACK that `Receiver::make_sack` makes, in the longest chunk, with another credit: how many bytes of user data there is room for.
/// The receiver stays as it is. Refuses only for memory.
pub fn make_sack(receiver: &Receiver, credit: u32) -> Result<ChunkSelectiveAck, ReceiverRefusal>
    ensures sack { IfOk result (λ s. sack_of s ≡ sack credit receiver.now) }
    ensures fits { IfOk result (λ s.
        length s.gap_ack_blocks.items + length s.duplicate_tsn.items ≤ 16379) }
    ensures memory { IfErr result (λ e. e ≡ OutOfMemory) }
{
    receiver.sack_of_entries(credit, MAX_SACK_ENTRIES, &mut Turns::new())
}

/// Whether a TSN came: it is at or before the cumulative one, or came beyond it.
pub fn has_come(receiver: &Receiver, tsn: u32) -> bool
    ensures { result ≡ has_come tsn (filter_of receiver.now) }
{
    receiver.has_come(tsn)
}

/// What came on a stream and was not read; None where it is not open.
pub fn reassembly(receiver: &Receiver, stream: u16) -> Option<&ReassemblyQueue>
    ensures { option_copied result
        ≡ option_map (λ l. l.queue) (stream_of stream receiver.now) }
{
    receiver.reassembly(stream)
}

/// The open streams, in the order in which they were opened; where one was closed, the last one stands in its place. Of each what came
/// and was not read, and its counters.
pub fn open_streams(receiver: &Receiver) -> &[InboundStream]
    ensures { result.now ≡ receiver.now.streams }
{
    receiver.open_streams()
}
