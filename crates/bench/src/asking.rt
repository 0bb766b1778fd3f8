//! The exchanges of `everyday` by a caller that has an error type: each refusal is turned into it by `?`.

use crate::ends::Ends;
use crate::everyday::{Load, messages_of, text_of};
use crate::exchange::{HEADER, LIMIT};
use crate::reassembly::length_of;
use crate::subject::{CALLS, STREAM};
use bytes::Bytes;
use sctp_chunks::chunk::chunk_kind::ChunkKind;
use sctp_chunks::chunk::chunk_payload_data::PayloadProtocolIdentifier;
use sctp_packets::{PacketReader, PacketWriter};
use sctp_receiver::receiver::refusal::ReceiverRefusal;
use sctp_sender::sender::refusal::SenderRefusal;
use sctp_util::error::Error;
use sctp_util::util::Checksum;
use std::alloc::AllocError;

/// Why an exchange ended early.
#[derive(Clone, Copy, Debug, PartialEq, Eq)]
pub enum Fault {
    /// The sender refused.
    Sender(SenderRefusal),
    /// The receiver refused.
    Receiver(ReceiverRefusal),
    /// A packet could not be written or read.
    Packet(Error),
    /// Memory ran out.
    OutOfMemory,
    /// Nothing waited, a packet had no room, or it had other chunks than were put into it.
    OtherChunks,
}

impl From<SenderRefusal> for Fault {
    fn from(e: SenderRefusal) -> Fault {
        Fault::Sender(e)
    }
}

impl From<ReceiverRefusal> for Fault {
    fn from(e: ReceiverRefusal) -> Fault {
        Fault::Receiver(e)
    }
}

impl From<Error> for Fault {
    fn from(e: Error) -> Fault {
        Fault::Packet(e)
    }
}

impl From<AllocError> for Fault {
    fn from(_e: AllocError) -> Fault {
        Fault::OutOfMemory
    }
}

// Writes so many messages.
fn write(ends: &mut Ends, messages: u32, text: &Bytes) -> Result<(), Fault> {
    for _ in 0..messages {
        ends.sender
            .write(STREAM, PayloadProtocolIdentifier::Binary, text)?;
    }
    Ok(())
}

// Sends the next chunk into the packet.
fn put_next(ends: &mut Ends, writer: &mut PacketWriter) -> Result<(), Fault> {
    let Some(chunk) = ends.sender.send_next(0)? else {
        return Err(Fault::OtherChunks);
    };
    if writer.put(&chunk)? {
        Ok(())
    } else {
        Err(Fault::OtherChunks)
    }
}

// Gives a chunk to the half that it is for.
fn take(ends: &mut Ends, chunk: &ChunkKind) -> Result<(), Fault> {
    match chunk {
        ChunkKind::PayloadData(chunk) => {
            ends.receiver.data(chunk)?;
            Ok(())
        }
        ChunkKind::SelectiveAck(chunk) => {
            ends.sender.acked(chunk)?;
            Ok(())
        }
        _ => Err(Fault::OtherChunks),
    }
}

// Reads the next chunk of a packet, and gives it to its half.
fn take_next(ends: &mut Ends, chunks: &mut PacketReader) -> Result<(), Fault> {
    match chunks.next(ends.alloc)? {
        Some(chunk) => take(ends, &chunk),
        None => Err(Fault::OtherChunks),
    }
}

// Takes a packet of so many chunks as its bytes.
fn come<C: Checksum>(ends: &mut Ends, raw: &Bytes, count: u32, sum: &C) -> Result<(), Fault> {
    let (_, mut chunks) = PacketReader::open(raw, sum)?;
    for _ in 0..count {
        take_next(ends, &mut chunks)?;
    }
    Ok(())
}

// Seals the packet of so many chunks, copies it into a datagram, and takes that.
fn come_each<C: Checksum>(
    ends: &mut Ends,
    writer: &mut PacketWriter,
    count: u32,
    sum: &C,
) -> Result<(), Fault> {
    writer.seal(sum);
    let raw = Bytes::copy_from_slice(ends.alloc, writer.bytes())?;
    come(ends, &raw, count, sum)
}

// Sends so many chunks in a packet, and takes them.
fn send<C: Checksum>(
    ends: &mut Ends,
    writer: &mut PacketWriter,
    messages: u32,
    sum: &C,
) -> Result<(), Fault> {
    writer.begin(HEADER);
    for _ in 0..messages {
        put_next(ends, writer)?;
    }
    come_each(ends, writer, messages, sum)
}

// Reads so many messages, and gives how many bytes.
fn read(ends: &mut Ends, messages: u32) -> Result<usize, Fault> {
    let mut bytes = 0usize;
    for _ in 0..messages {
        bytes = bytes.saturating_add(length_of(ends.receiver.read(STREAM)?));
    }
    Ok(bytes)
}

// Acknowledges what came, and takes the SACK.
fn acknowledge<C: Checksum>(
    ends: &mut Ends,
    writer: &mut PacketWriter,
    sum: &C,
) -> Result<(), Fault> {
    let sack = ends.receiver.sack(LIMIT)?;
    writer.begin(HEADER);
    if writer.put(&sack)? {
        come_each(ends, writer, 1, sum)
    } else {
        Err(Fault::OtherChunks)
    }
}

// Writes, sends, reads and acknowledges the messages of a packet, and gives how many bytes were read.
fn exchange<C: Checksum>(
    ends: &mut Ends,
    writer: &mut PacketWriter,
    load: Load,
    sum: &C,
) -> Result<usize, Fault> {
    let messages = messages_of(load);
    write(ends, messages, &text_of(load))?;
    send(ends, writer, messages, sum)?;
    let bytes = read(ends, messages)?;
    acknowledge(ends, writer, sum)?;
    Ok(bytes)
}

// Makes `CALLS` exchanges, and gives how many bytes were read.
fn exchange_each<C: Checksum>(ends: &mut Ends, load: Load, sum: &C) -> Result<usize, Fault> {
    let mut writer = PacketWriter::new(ends.alloc, LIMIT)?;
    let mut bytes = 0usize;
    for _ in 0..CALLS {
        bytes = bytes.saturating_add(exchange(ends, &mut writer, load, sum)?);
    }
    Ok(bytes)
}

/// Makes `CALLS` exchanges, and gives how many bytes were read, 0 where one was refused.
pub fn asking<C: Checksum>(ends: &mut Ends, load: Load, sum: &C) -> usize {
    exchange_each(ends, load, sum).unwrap_or(0)
}
