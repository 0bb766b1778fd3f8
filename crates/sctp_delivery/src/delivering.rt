//! A caller of both hosts: what it reads is what it wrote, and in the same order.

ghost use Rattle.std.specs.Prelude.{◌≡◌, ℕ, ◌+◌, ◌*◌, ◌^◌, ◌<◌, ◌≤◌, All, IfSome, OnSome, map, length};
ghost use Rattle.sctp_reassembly.specs.reassembly_queue.Fragments.{payload_of};
ghost use Rattle.sctp_delivery.specs.Delivering.{Delivers, Exchanges, IsReady};
ghost use Rattle.sctp_delivery.specs.Stand.{AreIn, Stand, given_in};

use crate::{receiver_steps, sender_steps};
use bytes::Bytes;
use sctp_data::chunk::chunk_payload_data::PayloadProtocolIdentifier;
use sctp_reassembly::chunks::Chunks;
use sctp_receiver::receiver::Receiver;
use sctp_sender::sender::{Reported, Sender};
use std::alloc::Global;

/// How many bytes a SACK has at most.
const ROOM: usize = 1200;

/// Sends the next fragment, hands it over, and hands the SACK back; None where one of the hosts refuses.
pub fn pass_one(sender: &mut Sender, receiver: &mut Receiver, now: u64) -> Option<()>
    ensures { OnSome result ((stream : ℕ) (st : Stand) → AreIn sender.old receiver.old st
        → given_in st + 2 < 2 ^ 31 → Exchanges stream 2 st sender.new receiver.new) }
{
    if let Some(chunk) = sender_steps::send_next(sender, now).ok()? {
        receiver_steps::data(receiver, &chunk).ok()?;
        let sack = receiver_steps::send_sack(receiver, ROOM).ok()?;
        sender_steps::acked(sender, &sack).ok()?;
    }
    Some(())
}

/// Writes a message and passes it on in at most so many rounds, at a moment in nanoseconds. Answers what is read then: where all that was
/// written to the stream before was read, that is the message that was written. None where nothing is to be read, or a host refuses.
pub fn deliver_one(
    sender: &mut Sender,
    receiver: &mut Receiver,
    stream: u16,
    ppi: PayloadProtocolIdentifier,
    bytes: &Bytes,
    rounds: u16,
    now: u64,
) -> Option<Chunks>
    ensures { IfSome result (λ chunks. (st : Stand) → AreIn sender.old receiver.old st
        → IsReady stream st → 0 < length bytes.now → given_in st + (2 * rounds + 1) < 2 ^ 31
        → Delivers stream (2 * rounds + 1) ppi bytes.now chunks.set.chunks st
        sender.new receiver.new) }
{
    sender_steps::write(sender, stream, ppi, bytes).ok()?;
    for _round in 0..rounds {
        pass_one(sender, receiver, now)?;
    }
    receiver_steps::read(receiver, stream).ok()?
}

/// Delivers messages one after another, each in at most so many rounds, and answers them: the same messages in the same order.
pub fn deliver_each(
    alloc: Global,
    sender: &mut Sender,
    receiver: &mut Receiver,
    stream: u16,
    ppi: PayloadProtocolIdentifier,
    messages: &[Bytes],
    rounds: u16,
    now: u64,
) -> Option<Vec<Chunks>>
    ensures { IfSome result (λ read. (st : Stand) → AreIn sender.old receiver.old st
        → IsReady stream st → All (λ bytes. 0 < length bytes) messages.now
        → given_in st + (2 * rounds + 1) * length messages.now < 2 ^ 31
        → map (λ chunks. payload_of chunks.set.chunks) read.items ≡ messages.now) }
{
    let mut read = Vec::new(alloc);
    for bytes in messages {
        let message = deliver_one(sender, receiver, stream, ppi, bytes, rounds, now)?;
        read.push(message).ok()?;
    }
    Some(read)
}

/// Two new hosts with one stream open, ordered and reliable, and no limits: they stand in a session, and nothing was written. None where
/// memory ran out.
/// Precondition: `fragment_size` is 1 to 65,519.
pub fn begin(
    alloc: Global,
    first_tsn: u32,
    fragment_size: u32,
    max_message_size: u32,
    stream: u16,
) -> Option<(Sender, Receiver)>
    requires { (0 < fragment_size) × (fragment_size ≤ 65519) }
    ensures { IfSome result (λ hosts. (st : Stand) × AreIn hosts.0 hosts.1 st
        × IsReady stream st × (given_in st ≤ 1)) }
{
    let mut sender = Sender::new(
        alloc,
        first_tsn,
        fragment_size,
        max_message_size,
        Reported::Drop,
    );
    let mut receiver = Receiver::new(alloc, first_tsn, max_message_size, None);
    sender_steps::open(&mut sender, stream).ok()?;
    receiver_steps::open(&mut receiver, stream).ok()?;
    Some((sender, receiver))
}

/// Passes messages on between two new hosts, and answers what is read: the same messages, in the same order.
/// Precondition: each has some bytes, and there are fewer than 2^14.
pub fn transfer(
    alloc: Global,
    first_tsn: u32,
    messages: &[Bytes],
    rounds: u16,
) -> Option<Vec<Chunks>>
    requires some { All (λ bytes. 0 < length bytes) messages.now }
    requires few { length messages.now < 2 ^ 14 }
    ensures { IfSome result (λ read. map (λ chunks. payload_of chunks.set.chunks) read.items
        ≡ messages.now) }
{
    let ppi = PayloadProtocolIdentifier::Binary;
    let (mut sender, mut receiver) = begin(alloc, first_tsn, 1172, 65_536, 0)?;
    deliver_each(
        alloc,
        &mut sender,
        &mut receiver,
        0,
        ppi,
        messages,
        rounds,
        0,
    )
}
