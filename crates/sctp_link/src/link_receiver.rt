//! The receiver of a link, and the payload queue of its TSNs that the link lends.

ghost use Rattle.std.specs.Prelude.{◌≡◌, ◌⊎◌, None, Some, OnOk, OnErr, IfOk, IfErr, map, option_map, false};
ghost use Rattle.sctp_data.specs.ForwardTsn.{forward_tsn_of};
ghost use Rattle.sctp_receiver.specs.declared.receiver.refusal.ReceiverRefusal.TheVariants.{OutOfMemory, StreamUnknown};

pub(crate) mod tsn_queue;

use self::tsn_queue::TsnQueue;
use self::tsn_queue::undo::{TsnUndo, take_back_each, take_each};
use sctp_chunks::chunk::chunk_forward_tsn::ChunkForwardTsn;
use sctp_chunks::chunk::chunk_payload_data::ChunkPayloadData;
use sctp_queues::chunks::Chunks;
use sctp_queues::payload_queue::PayloadQueue;
use sctp_receiver::receiver::Receiver;
use sctp_receiver::receiver::arrival::{Arrival, Forwarded};
use sctp_receiver::receiver::refusal::ReceiverRefusal;
use sctp_receiver::replay;
use std::alloc::Global;
use std::marker::Model;

/// A receiver without limits. A payload queue keeps the TSNs that it has.
#[derive(Drop)]
pub(crate) struct LinkReceiver {
    receiver: Receiver,
    tsns: TsnQueue,
    // how the TSNs of the latest chunks are taken back: a list that is kept for its memory
    undos: Vec<TsnUndo>,
}

impl Model for LinkReceiver {
    ghost use Rattle.std.specs.Prelude.{◌≡◌, None};
    ghost use Rattle.sctp_receiver.specs.Receiver.{Reception, filter_of};

    ghost Value = { Reception };

    ghost view = { λ a. a.receiver };

    ghost invariant = { λ a. record {
      tsns : a.tsns.filter ≡ filter_of a.receiver;
      unlimited : a.receiver.limits ≡ None;
    } };
}

impl LinkReceiver {
    ghost use Rattle.sctp_reassembly.specs.reassembly_queue.ReassemblyQueue.{at_start};
    ghost use Rattle.sctp_receiver.specs.Receiver.{TakesEach, StopsAt, at_first, is_open, open_stream, close_stream, message_on, after_read, forward_refusal, forwarded_of, after_forward, without_duplicates};
    ghost use Rattle.sctp_receiver.specs.TsnFilter.{placeholder};

    /// No stream is open, nothing came, and the first TSN is expected next. It takes no memory.
    pub(crate) fn new(alloc: Global, first_tsn: u32, max_message_size: u32) -> Self
        ensures { result ≡ at_first first_tsn max_message_size None }
    {
        LinkReceiver {
            receiver: Receiver::new(alloc, first_tsn, max_message_size, None),
            tsns: TsnQueue::new(alloc, first_tsn),
            undos: Vec::new(alloc),
        }
    }

    /// The receiver itself.
    pub(crate) fn receiver(&self) -> &Receiver
        ensures { result.now ≡ self.now }
    {
        &self.receiver
    }

    /// The TSNs beyond the cumulative one, each as a chunk that says nothing else, and those that came again since the
    /// last SACK.
    pub(crate) fn filter(&self) -> &PayloadQueue
        ensures beyond { result.now.chunks ≡ map placeholder self.now.beyond }
        ensures duplicates { result.now.duplicates ≡ self.now.duplicates }
    {
        self.tsns.queue()
    }

    /// `Receiver::open`, which leaves the TSNs.
    pub(crate) fn open(&mut self, stream: u16) -> Result<(), ReceiverRefusal>
        ensures ok { OnOk result (self.new ≡ open_stream stream self.old) }
        ensures err { OnErr result (self.new ≡ self.old) }
    {
        self.receiver.open(stream)
    }

    /// `Receiver::close`, which leaves the TSNs.
    pub(crate) fn close(&mut self, stream: u16)
        ensures { self.new ≡ close_stream stream self.old }
    {
        self.receiver.close(stream);
    }

    /// `Receiver::read`, which leaves the TSNs.
    pub(crate) fn read(&mut self, stream: u16) -> Result<Option<Chunks>, ReceiverRefusal>
        ensures message { IfOk result (λ message. message
            ≡ option_map at_start (message_on stream self.old)) }
        ensures ok { OnOk result (self.new ≡ after_read stream self.old) }
        ensures refused { IfErr result (λ e. (e ≡ StreamUnknown)
            × (is_open stream self.old ≡ false)) }
        ensures err { OnErr result (self.new ≡ self.old) }
    {
        self.receiver.read(stream)
    }

    /// Takes DATA chunks as `replay::data_each_with_any_ssn` does, all or none. Where it refuses nothing changes; `OutOfMemory` may
    /// come in the place of any other refusal.
    pub(crate) fn data_each(
        &mut self,
        chunks: &[ChunkPayloadData],
    ) -> Result<Vec<Arrival>, ReceiverRefusal>
        ensures ok { IfOk result (λ arrivals.
            TakesEach chunks.now arrivals.items self.old self.new) }
        ensures refused { IfErr result (λ e. (e ≡ OutOfMemory)
            ⊎ StopsAt chunks.now self.old e) }
        ensures err { OnErr result (self.new ≡ self.old) }
    {
        let Ok(()) = take_each(&mut self.tsns, chunks, &mut self.undos) else {
            return Err(ReceiverRefusal::OutOfMemory);
        };
        match replay::data_each_with_any_ssn(&mut self.receiver, chunks) {
            Ok(arrivals) => Ok(arrivals),
            Err(refusal) => {
                take_back_each(&mut self.tsns, &mut self.undos);
                Err(refusal)
            }
        }
    }

    /// Takes a FORWARD-TSN as `replay::forward_tsn_by_names` does. It takes no memory.
    pub(crate) fn forward_tsn_by_names(
        &mut self,
        chunk: &ChunkForwardTsn,
    ) -> Result<Forwarded, ReceiverRefusal>
        ensures ok { OnOk result
            (self.new ≡ after_forward (forward_tsn_of chunk.now) self.old) }
        ensures refused { IfErr result
            (λ e. forward_refusal (forward_tsn_of chunk.now) self.old ≡ Some e) }
        ensures err { OnErr result (self.new ≡ self.old) }
    {
        let forwarded = replay::forward_tsn_by_names(&mut self.receiver, chunk)?;
        self.tsns.skip_to(chunk.new_cumulative_tsn);
        Ok(forwarded)
    }

    /// A SACK was sent: all duplicates are forgotten. It takes no memory.
    pub(crate) fn sack_sent(&mut self)
        ensures { self.new ≡ without_duplicates self.old }
    {
        self.receiver.sack_sent();
        self.tsns.forget_duplicates();
    }
}
