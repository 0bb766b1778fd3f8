//! A sender whose messages have any payload type: the types that have no name in it are kept beside it (RFC 9260 3.3.1).

ghost use Rattle.std.specs.Prelude.{◌≡◌, ◌<◌, ◌⊎◌, None, Some, length, IfOk, IfSome, IfErr, OnErr};
ghost use Rattle.sctp_c.specs.Sending.{Writes, new_sender};
ghost use Rattle.sctp_c.specs.Types.{KeepsTypes, type_of};
ghost use Rattle.sctp_data.specs.PayloadData.{payload_type_from, payload_type_number};
ghost use Rattle.sctp_sender.specs.Sender.{write_refusal};
ghost use Rattle.sctp_sender.specs.declared.sender.refusal.SenderRefusal.TheVariants.{OutOfMemory};

use super::types::Types;
use bytes::Bytes;
use sctp_data::chunk::chunk_payload_data::PayloadProtocolIdentifier;
use sctp_sender::sender::Sender;
use sctp_sender::sender::refusal::SenderRefusal;
use std::alloc::Global;

/// A sender, and the payload types of its messages that have no name.
#[derive(Drop)]
pub struct TypedSender {
    /// The sender.
    pub own: Sender,
    /// The payload types, by the messages' numbers.
    pub types: Types,
}

impl TypedSender {
    /// A sender to which nothing was written.
    pub fn new(alloc: Global, own: Sender) -> TypedSender
        ensures { result ≡ new_sender own }
    {
        TypedSender {
            own,
            types: Types::new(alloc),
        }
    }

    // Forgets the payload types of messages that are gone, where they are more than half; never that of this message.
    fn settle(&mut self, message: u64)
        ensures own { self.new.own ≡ self.old.own }
        ensures given { type_of message self.new.types ≡ type_of message self.old.types }
        ensures kept { KeepsTypes self.old.types self.new.types self.old.own.flight.queue }
    {
        let queue = self.own.outbound();
        let most = queue.pending_len().saturating_add(queue.inflight_len());
        if self.types.len() / 2 > most {
            self.types.prune(queue, message);
        }
    }

    // Takes a write whose payload type has no name: its number is noted first.
    fn write_noted(
        &mut self,
        stream: u16,
        payload_type: u32,
        ppi: PayloadProtocolIdentifier,
        bytes: &Bytes,
    ) -> Result<(Option<u64>, usize), SenderRefusal>
        requires { (ppi ≡ payload_type_from payload_type) × (payload_type_number ppi ≡ 58) }
        ensures ok { IfOk result (λ r. IfSome r.0 (λ n. (0 < length bytes.now)
            × Writes stream payload_type bytes.now n r.1 self.old self.new)) }
        ensures none { IfOk result (λ r. r.0 ≡ None
            → (length bytes.now ≡ 0) × (self.new ≡ self.old)) }
        ensures refused { IfErr result (λ e. (e ≡ OutOfMemory)
            ⊎ (write_refusal stream (length bytes.now) self.old.own ≡ Some e)) }
        ensures err { OnErr result (self.new ≡ self.old) }
    {
        let message = self.own.outbound().next_message_id();
        let Ok(place) = self.types.note(message, payload_type) else {
            return Err(SenderRefusal::OutOfMemory);
        };
        match self.own.write(stream, ppi, bytes) {
            Ok((Some(number), count)) => {
                self.settle(message);
                Ok((Some(number), count))
            }
            Ok((None, count)) => {
                self.types.forget(place);
                Ok((None, count))
            }
            Err(e) => {
                self.types.forget(place);
                Err(e)
            }
        }
    }

    /// Takes a write as `Sender::write` does, but its payload type may be any number: each of its chunks is sent with that.
    pub fn write(
        &mut self,
        stream: u16,
        payload_type: u32,
        bytes: &Bytes,
    ) -> Result<(Option<u64>, usize), SenderRefusal>
        ensures ok { IfOk result (λ r. IfSome r.0 (λ n. (0 < length bytes.now)
            × Writes stream payload_type bytes.now n r.1 self.old self.new)) }
        ensures none { IfOk result (λ r. r.0 ≡ None
            → (length bytes.now ≡ 0) × (self.new ≡ self.old)) }
        ensures refused { IfErr result (λ e. (e ≡ OutOfMemory)
            ⊎ (write_refusal stream (length bytes.now) self.old.own ≡ Some e)) }
        ensures err { OnErr result (self.new ≡ self.old) }
    {
        let ppi = PayloadProtocolIdentifier::from(payload_type);
        if ppi.number() == 58 {
            return self.write_noted(stream, payload_type, ppi, bytes);
        }
        self.own.write(stream, ppi, bytes)
    }
}
