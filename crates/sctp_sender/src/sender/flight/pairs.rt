//! The pairs of a FORWARD-TSN (RFC 3758 3.2), each with a stream and a number.

ghost use Rattle.std.specs.Prelude.{◌≡◌, ◌++◌, ◌∷◌, [], None, OnOk, IfErr, IfSome, length, slice_set};
ghost use Rattle.sctp_sender.specs.declared.sender.refusal.SenderRefusal.TheVariants.{OutOfMemory};
ghost use Rattle.sctp_sender.specs.Abandonment.{IsFirstPair, IsNoPair};

use crate::sender::refusal::SenderRefusal;
use sctp_data::chunk::chunk_forward_tsn::ChunkForwardTsnStream;
use sctp_stream::stream_numbers::{StreamNumbers, put};
use std::alloc::Global;
use std::marker::Model;

/// Pairs of streams and numbers, one of a stream. That of a stream is found without a walk over them.
#[derive(Drop)]
pub struct Pairs {
    items: Vec<ChunkForwardTsnStream>,
    streams: StreamNumbers,
}

impl Model for Pairs {
    ghost use Rattle.std.specs.Prelude.{◌≡◌, List};
    ghost use Rattle.sctp_sender.specs.Abandonment.{streams_of};
    ghost use Rattle.sctp_data.specs.declared.chunk.chunk_forward_tsn.ChunkForwardTsnStream.{ChunkForwardTsnStream};

    ghost Value = { List ChunkForwardTsnStream };

    ghost view = { λ p. p.items.items };

    ghost invariant = { λ p. p.streams ≡ streams_of p.items.items };
}

impl Pairs {
    /// No pairs. It takes no memory.
    pub(crate) fn new(alloc: Global) -> Self
        ensures { result ≡ [] }
    {
        Pairs {
            items: Vec::new(alloc),
            streams: StreamNumbers::new(alloc),
        }
    }

    /// How many there are.
    pub(crate) fn len(&self) -> usize
        ensures { result ≡ length self.now }
    {
        self.items.len()
    }

    /// Where the first pair of a stream stands, None where there is none.
    pub(crate) fn place_of(&self, stream: u16) -> Option<usize>
        ensures some { IfSome result (λ k. IsFirstPair stream self.now k) }
        ensures none { result ≡ None → IsNoPair stream self.now (length self.now) }
    {
        self.streams.place_of(stream)
    }

    /// Puts a pair in the place of that of its stream.
    /// Precondition: that stands there.
    pub(crate) fn set(&mut self, place: usize, pair: ChunkForwardTsnStream)
        requires { IsFirstPair pair.identifier self.old place }
        ensures { self.new ≡ slice_set self.old place pair }
    {
        self.items[place] = pair;
    }

    /// Puts a pair behind the others. Refuses only for memory.
    /// Precondition: there is none of its stream.
    pub(crate) fn push(&mut self, pair: ChunkForwardTsnStream) -> Result<(), SenderRefusal>
        requires { IsNoPair pair.identifier self.old (length self.old) }
        ensures ok { OnOk result (self.new ≡ self.old ++ pair ∷ []) }
        ensures memory { IfErr result (λ e. e ≡ OutOfMemory) }
    {
        if self.items.reserve(1).is_err() {
            return Err(SenderRefusal::OutOfMemory);
        }
        self.streams.push(pair.identifier)?;
        put(&mut self.items, pair);
        Ok(())
    }

    /// The pairs, in the order in which they were put.
    pub(crate) fn into_items(self) -> Vec<ChunkForwardTsnStream>
        ensures { result.items ≡ self }
    {
        self.items
    }
}
