//! What a link acknowledges (RFC 4960 3.3.4, 6.2).

ghost use Rattle.std.specs.Prelude.{◌≡◌, None, OnErr, IfOk, IsOkUnless};
ghost use Rattle.sctp_util.specs.declared.error.Error.TheVariants.{ErrOutOfMemory};

use super::Link;
use crate::datagram::write_datagram;
use crate::event::{LinkRefusal, Reply};
use crate::record::{Datagram, Kind};
use sctp_chunks::chunk::chunk_kind::ChunkKind;
use sctp_receiver::replay;
use sctp_util::error::{Error, Result};
use sctp_util::util::Checksum;

impl<C: Checksum + Drop> Link<C> {
    ghost use Rattle.sctp_model.specs.Steps.{IsRight, refusal_of};
    ghost use Rattle.sctp_model.specs.declared.event.Event.TheVariants as E;
    ghost use Rattle.sctp_link.specs.Replies.{reply_of};

    /// Makes a SACK; `credit` is in bytes. Refuses only for memory, and nothing changes then.
    pub(super) fn ack(&mut self, credit: u32) -> Result<Reply>
        ensures ok { IfOk result
            (λ reply. IsRight self.old.recorded (E.Ack credit) (reply_of reply) self.new.recorded) }
        ensures checksum { self.new.checksum ≡ self.old.checksum }
        ensures err { OnErr result (self.new.recorded ≡ self.old.recorded) }
        ensures memory { IsOkUnless result ErrOutOfMemory }
    {
        let Ok(sack) = replay::make_sack(self.receiver.receiver(), credit) else {
            return Err(Error::ErrOutOfMemory);
        };
        let blocks = Vec::from_slice(self.alloc, &sack.gap_ack_blocks)?;
        let count = sack.duplicate_tsn.len();
        let duplicates = Vec::from_slice(self.alloc, &self.duplicates[..count])?;
        let cumulative = sack
            .cumulative_tsn_ack
            .wrapping_sub(self.first_tsn)
            .wrapping_add(1);
        let bytes = write_datagram(self.alloc, ChunkKind::SelectiveAck(sack), &self.checksum)?;
        self.network.reserve(1)?;
        let kind = Kind::Sack {
            cumulative: u64::from(cumulative),
            credit,
            blocks,
            duplicates,
        };
        let datagram = self.network.len() as u64;
        self.receiver.sack_sent();
        self.duplicates.clear();
        self.network.push_reserved(Datagram { kind, bytes });
        Ok(Reply::Ack { datagram })
    }
}
