//! A chunk of any kind.

ghost use Rattle.sctp_chunks.specs.Kind.{wire_of, IsRead, IsFreshKind, KindFault};

use super::Chunk;
use super::chunk_abort::ChunkAbort;
use super::chunk_cookie_ack::ChunkCookieAck;
use super::chunk_cookie_echo::ChunkCookieEcho;
use super::chunk_error::ChunkError;
use super::chunk_forward_tsn::ChunkForwardTsn;
use super::chunk_header::CHUNK_HEADER_SIZE;
use super::chunk_heartbeat::ChunkHeartbeat;
use super::chunk_heartbeat_ack::ChunkHeartbeatAck;
use super::chunk_i_forward_tsn::ChunkIForwardTsn;
use super::chunk_init::ChunkInit;
use super::chunk_payload_data::ChunkPayloadData;
use super::chunk_reconfig::ChunkReconfig;
use super::chunk_selective_ack::ChunkSelectiveAck;
use super::chunk_shutdown::ChunkShutdown;
use super::chunk_shutdown_ack::ChunkShutdownAck;
use super::chunk_shutdown_complete::ChunkShutdownComplete;
use bytes::{Bytes, BytesMut};
use sctp_util::error::{Error, Result};
use sctp_util::util::{
    CT_ABORT, CT_COOKIE_ACK, CT_COOKIE_ECHO, CT_ERROR, CT_FORWARD_TSN, CT_HEARTBEAT,
    CT_HEARTBEAT_ACK, CT_I_FORWARD_TSN, CT_INIT, CT_INIT_ACK, CT_PAYLOAD_DATA, CT_RECONFIG,
    CT_SACK, CT_SHUTDOWN, CT_SHUTDOWN_ACK, CT_SHUTDOWN_COMPLETE, ChunkType,
};
use std::alloc::Global;
use std::fmt;

/// A chunk of one of the fifteen kinds that a packet is read for, chosen by its type (RFC 4960 3.2).
/// INIT and INIT-ACK are one kind. It prints, and is read and written, as that kind is.
/// Refuses under four bytes with `ErrChunkHeaderTooSmall`, and a type of no kind with `ErrUnmarshalUnknownChunkType`.
#[derive(Debug, Drop)]
pub enum ChunkKind {
    PayloadData(ChunkPayloadData),
    Init(ChunkInit),
    SelectiveAck(ChunkSelectiveAck),
    Heartbeat(ChunkHeartbeat),
    HeartbeatAck(ChunkHeartbeatAck),
    Abort(ChunkAbort),
    Shutdown(ChunkShutdown),
    ShutdownAck(ChunkShutdownAck),
    Error(ChunkError),
    CookieEcho(ChunkCookieEcho),
    CookieAck(ChunkCookieAck),
    ShutdownComplete(ChunkShutdownComplete),
    Reconfig(ChunkReconfig),
    ForwardTsn(ChunkForwardTsn),
    IForwardTsn(ChunkIForwardTsn),
}

impl fmt::Display for ChunkKind {
    fn fmt<W: fmt::Write>(&self, f: &mut fmt::Formatter<W>) -> fmt::Result {
        match self {
            ChunkKind::PayloadData(c) => write!(f, "{c}"),
            ChunkKind::Init(c) => write!(f, "{c}"),
            ChunkKind::SelectiveAck(c) => write!(f, "{c}"),
            ChunkKind::Heartbeat(c) => write!(f, "{c}"),
            ChunkKind::HeartbeatAck(c) => write!(f, "{c}"),
            ChunkKind::Abort(c) => write!(f, "{c}"),
            ChunkKind::Shutdown(c) => write!(f, "{c}"),
            ChunkKind::ShutdownAck(c) => write!(f, "{c}"),
            ChunkKind::Error(c) => write!(f, "{c}"),
            ChunkKind::CookieEcho(c) => write!(f, "{c}"),
            ChunkKind::CookieAck(c) => write!(f, "{c}"),
            ChunkKind::ShutdownComplete(c) => write!(f, "{c}"),
            ChunkKind::Reconfig(c) => write!(f, "{c}"),
            ChunkKind::ForwardTsn(c) => write!(f, "{c}"),
            ChunkKind::IForwardTsn(c) => write!(f, "{c}"),
        }
    }
}

impl Chunk for ChunkKind {
    ghost wire = { wire_of };

    ghost IsKind = { IsRead };

    ghost IsFresh = { IsFreshKind };

    ghost fault = { KindFault };

    #[tactic(auto, unfolding(crate::specs::Kind::KindFault))]
    fn unmarshal(alloc: Global, raw: &Bytes) -> Result<Self> {
        if raw.len() < CHUNK_HEADER_SIZE {
            return Err(Error::ErrChunkHeaderTooSmall);
        }
        Ok(match ChunkType(raw[0]) {
            CT_PAYLOAD_DATA => ChunkKind::PayloadData(ChunkPayloadData::unmarshal(alloc, raw)?),
            CT_INIT | CT_INIT_ACK => ChunkKind::Init(ChunkInit::unmarshal(alloc, raw)?),
            CT_SACK => ChunkKind::SelectiveAck(ChunkSelectiveAck::unmarshal(alloc, raw)?),
            CT_HEARTBEAT => ChunkKind::Heartbeat(ChunkHeartbeat::unmarshal(alloc, raw)?),
            CT_HEARTBEAT_ACK => ChunkKind::HeartbeatAck(ChunkHeartbeatAck::unmarshal(alloc, raw)?),
            CT_ABORT => ChunkKind::Abort(ChunkAbort::unmarshal(alloc, raw)?),
            CT_SHUTDOWN => ChunkKind::Shutdown(ChunkShutdown::unmarshal(alloc, raw)?),
            CT_SHUTDOWN_ACK => ChunkKind::ShutdownAck(ChunkShutdownAck::unmarshal(alloc, raw)?),
            CT_ERROR => ChunkKind::Error(ChunkError::unmarshal(alloc, raw)?),
            CT_COOKIE_ECHO => ChunkKind::CookieEcho(ChunkCookieEcho::unmarshal(alloc, raw)?),
            CT_COOKIE_ACK => ChunkKind::CookieAck(ChunkCookieAck::unmarshal(alloc, raw)?),
            CT_SHUTDOWN_COMPLETE => ChunkKind::ShutdownComplete(ChunkShutdownComplete::unmarshal(
                alloc, raw,
            )?),
            CT_RECONFIG => ChunkKind::Reconfig(ChunkReconfig::unmarshal(alloc, raw)?),
            CT_FORWARD_TSN => ChunkKind::ForwardTsn(ChunkForwardTsn::unmarshal(alloc, raw)?),
            CT_I_FORWARD_TSN => ChunkKind::IForwardTsn(ChunkIForwardTsn::unmarshal(alloc, raw)?),
            _ => return Err(Error::ErrUnmarshalUnknownChunkType),
        })
    }

    fn value_length(&self) -> usize {
        match self {
            ChunkKind::PayloadData(c) => c.value_length(),
            ChunkKind::Init(c) => c.value_length(),
            ChunkKind::SelectiveAck(c) => c.value_length(),
            ChunkKind::Heartbeat(c) => c.value_length(),
            ChunkKind::HeartbeatAck(c) => c.value_length(),
            ChunkKind::Abort(c) => c.value_length(),
            ChunkKind::Shutdown(c) => c.value_length(),
            ChunkKind::ShutdownAck(c) => c.value_length(),
            ChunkKind::Error(c) => c.value_length(),
            ChunkKind::CookieEcho(c) => c.value_length(),
            ChunkKind::CookieAck(c) => c.value_length(),
            ChunkKind::ShutdownComplete(c) => c.value_length(),
            ChunkKind::Reconfig(c) => c.value_length(),
            ChunkKind::ForwardTsn(c) => c.value_length(),
            ChunkKind::IForwardTsn(c) => c.value_length(),
        }
    }

    fn chunk_type(&self) -> ChunkType {
        match self {
            ChunkKind::PayloadData(c) => c.chunk_type(),
            ChunkKind::Init(c) => c.chunk_type(),
            ChunkKind::SelectiveAck(c) => c.chunk_type(),
            ChunkKind::Heartbeat(c) => c.chunk_type(),
            ChunkKind::HeartbeatAck(c) => c.chunk_type(),
            ChunkKind::Abort(c) => c.chunk_type(),
            ChunkKind::Shutdown(c) => c.chunk_type(),
            ChunkKind::ShutdownAck(c) => c.chunk_type(),
            ChunkKind::Error(c) => c.chunk_type(),
            ChunkKind::CookieEcho(c) => c.chunk_type(),
            ChunkKind::CookieAck(c) => c.chunk_type(),
            ChunkKind::ShutdownComplete(c) => c.chunk_type(),
            ChunkKind::Reconfig(c) => c.chunk_type(),
            ChunkKind::ForwardTsn(c) => c.chunk_type(),
            ChunkKind::IForwardTsn(c) => c.chunk_type(),
        }
    }

    fn flags(&self) -> u8 {
        match self {
            ChunkKind::PayloadData(c) => c.flags(),
            ChunkKind::Init(c) => c.flags(),
            ChunkKind::SelectiveAck(c) => c.flags(),
            ChunkKind::Heartbeat(c) => c.flags(),
            ChunkKind::HeartbeatAck(c) => c.flags(),
            ChunkKind::Abort(c) => c.flags(),
            ChunkKind::Shutdown(c) => c.flags(),
            ChunkKind::ShutdownAck(c) => c.flags(),
            ChunkKind::Error(c) => c.flags(),
            ChunkKind::CookieEcho(c) => c.flags(),
            ChunkKind::CookieAck(c) => c.flags(),
            ChunkKind::ShutdownComplete(c) => c.flags(),
            ChunkKind::Reconfig(c) => c.flags(),
            ChunkKind::ForwardTsn(c) => c.flags(),
            ChunkKind::IForwardTsn(c) => c.flags(),
        }
    }

    fn put_value(&self, buf: &mut BytesMut) {
        match self {
            ChunkKind::PayloadData(c) => c.put_value(buf),
            ChunkKind::Init(c) => c.put_value(buf),
            ChunkKind::SelectiveAck(c) => c.put_value(buf),
            ChunkKind::Heartbeat(c) => c.put_value(buf),
            ChunkKind::HeartbeatAck(c) => c.put_value(buf),
            ChunkKind::Abort(c) => c.put_value(buf),
            ChunkKind::Shutdown(c) => c.put_value(buf),
            ChunkKind::ShutdownAck(c) => c.put_value(buf),
            ChunkKind::Error(c) => c.put_value(buf),
            ChunkKind::CookieEcho(c) => c.put_value(buf),
            ChunkKind::CookieAck(c) => c.put_value(buf),
            ChunkKind::ShutdownComplete(c) => c.put_value(buf),
            ChunkKind::Reconfig(c) => c.put_value(buf),
            ChunkKind::ForwardTsn(c) => c.put_value(buf),
            ChunkKind::IForwardTsn(c) => c.put_value(buf),
        }
    }

    fn check(&self) -> Result<()> {
        match self {
            ChunkKind::PayloadData(c) => c.check(),
            ChunkKind::Init(c) => c.check(),
            ChunkKind::SelectiveAck(c) => c.check(),
            ChunkKind::Heartbeat(c) => c.check(),
            ChunkKind::HeartbeatAck(c) => c.check(),
            ChunkKind::Abort(c) => c.check(),
            ChunkKind::Shutdown(c) => c.check(),
            ChunkKind::ShutdownAck(c) => c.check(),
            ChunkKind::Error(c) => c.check(),
            ChunkKind::CookieEcho(c) => c.check(),
            ChunkKind::CookieAck(c) => c.check(),
            ChunkKind::ShutdownComplete(c) => c.check(),
            ChunkKind::Reconfig(c) => c.check(),
            ChunkKind::ForwardTsn(c) => c.check(),
            ChunkKind::IForwardTsn(c) => c.check(),
        }
    }

    fn check_form(&self) -> Result<()> {
        match self {
            ChunkKind::PayloadData(c) => c.check_form(),
            ChunkKind::Init(c) => c.check_form(),
            ChunkKind::SelectiveAck(c) => c.check_form(),
            ChunkKind::Heartbeat(c) => c.check_form(),
            ChunkKind::HeartbeatAck(c) => c.check_form(),
            ChunkKind::Abort(c) => c.check_form(),
            ChunkKind::Shutdown(c) => c.check_form(),
            ChunkKind::ShutdownAck(c) => c.check_form(),
            ChunkKind::Error(c) => c.check_form(),
            ChunkKind::CookieEcho(c) => c.check_form(),
            ChunkKind::CookieAck(c) => c.check_form(),
            ChunkKind::ShutdownComplete(c) => c.check_form(),
            ChunkKind::Reconfig(c) => c.check_form(),
            ChunkKind::ForwardTsn(c) => c.check_form(),
            ChunkKind::IForwardTsn(c) => c.check_form(),
        }
    }
}
