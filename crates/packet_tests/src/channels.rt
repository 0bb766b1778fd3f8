//! A caller of `sctp_dcep`.

ghost use Rattle.std.specs.Prelude.{◌≡◌, [], ◌∷◌, IfOk, IfSome};
ghost use Rattle.sctp_dcep.specs.Message.{read_of};

use bytes::Bytes;
use sctp_dcep::{Fault, Message, Open};
use std::alloc::Global;

/// The channel that a DATA_CHANNEL_OPEN asks for, and the DATA_CHANNEL_ACK that answers it (RFC 8832 6); None of an acknowledgement.
pub fn accept(alloc: Global, raw: &Bytes) -> Result<Option<(Open, Bytes)>, Fault>
    ensures { IfOk result (λ asked. IfSome asked
        (λ it. (read_of raw.now ≡ Ok (Message.Open it.0)) × (it.1 ≡ 2 ∷ []))) }
{
    match Message::read(raw)? {
        Message::Ack => Ok(None),
        Message::Open(open) => Ok(Some((open, Message::Ack.write(alloc)?))),
    }
}
