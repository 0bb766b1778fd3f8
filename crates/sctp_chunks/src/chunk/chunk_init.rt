//! INIT and INIT-ACK: how an association begins.

ghost use Rattle.std.specs.Prelude.{◌≡◌, ◌++◌, ◌∷◌, [], map, IfOk, OnOk, OnErr, IsOkUnless};
ghost use Rattle.sctp_params.specs.Param.{supported_extensions};
ghost use Rattle.sctp_params.specs.ParamKind.{parameter_of};
ghost use Rattle.sctp_util.specs.declared.error.Error.TheVariants.{ErrOutOfMemory};
ghost use Rattle.sctp_chunks.specs.Init.{init_of};
ghost use Rattle.sctp_chunks.specs.Wire.{init_chunk, IsInit};
ghost use Rattle.sctp_chunks.specs.Fault.{InitFault};

use super::Chunk;
use super::chunk_header::{open_any, share_value};
use super::params::{params_length, put_params, read_params};
use bytes::{Bytes, BytesMut};
use sctp_params::param::param_kind::ParamKind;
use sctp_params::param::param_supported_extensions::ParamSupportedExtensions;
use sctp_util::error::{Error, Result};
use sctp_util::field::{put_u16, put_u32, read_u16, read_u32};
use sctp_util::util::{CT_FORWARD_TSN, CT_INIT, CT_INIT_ACK, CT_RECONFIG, ChunkType};
use std::alloc::Global;
use std::fmt;

/// The bytes of the value before its parameters.
pub const INIT_CHUNK_MIN_LENGTH: usize = 16;

/// The bytes of a parameter's header.
pub const INIT_OPTIONAL_VAR_HEADER_LENGTH: usize = 4;

/// What one side says of itself when an association begins (RFC 4960 3.3.2 and 3.3.3,
/// types 1 and 2). The value is 16 bytes, then parameters, padded to multiples of
/// four between one another; up to three bytes behind the last are ignored.
/// Refuses another type with `ErrChunkTypeNotTypeInit`, a value of under 16 bytes with `ErrChunkValueNotLongEnough`,
/// flags other than 0 with `ErrChunkTypeInitFlagZero`, and a parameter as `build_param` does. `check` refuses, in
/// this order, tag 0, 0 inbound streams, 0 outbound streams and a credit under 1,500 bytes.
#[derive(Debug, Drop)]
pub struct ChunkInit {
    /// Whether it is an INIT-ACK.
    pub is_ack: bool,
    /// The verification tag that the other side is to put into its packets (RFC 4960 8.5).
    pub initiate_tag: u32,
    /// How many bytes of user data its sender has room for.
    pub advertised_receiver_window_credit: u32,
    /// How many streams its sender wants to send on.
    pub num_outbound_streams: u16,
    /// How many streams its sender takes at most.
    pub num_inbound_streams: u16,
    /// The TSN of the first DATA chunk that its sender sends.
    pub initial_tsn: u32,
    /// The optional parameters, in the order in which they stand.
    pub params: Vec<ParamKind>,
}

/// An INIT-ACK, which has the same fields (RFC 4960 3.3.3).
pub type ChunkInitAck = ChunkInit;

impl fmt::Display for ChunkInit {
    fn fmt<W: fmt::Write>(&self, f: &mut fmt::Formatter<W>) -> fmt::Result {
        write!(f, "{} is_ack: {}", self.chunk_type(), self.is_ack)?;
        let gap = "\n            ";
        write!(f, "{gap}initiate_tag: {}", self.initiate_tag)?;
        write!(
            f,
            "{gap}advertised_receiver_window_credit: {}",
            self.advertised_receiver_window_credit
        )?;
        write!(
            f,
            "{gap}num_outbound_streams: {}",
            self.num_outbound_streams
        )?;
        write!(f, "{gap}num_inbound_streams: {}", self.num_inbound_streams)?;
        write!(f, "{gap}initial_tsn: {}", self.initial_tsn)?;
        for (i, param) in self.params.iter().enumerate() {
            write!(f, "Param {i}:\n {param}")?;
        }
        Ok(())
    }
}

impl ChunkInit {
    /// Adds the parameter that says that RECONFIG and FORWARD-TSN chunks are understood
    /// (RFC 5061 4.2.7). Refuses only for memory, and the chunk is as it was then.
    pub fn set_supported_extensions(&mut self, alloc: Global) -> Result<()>
        ensures ok { OnOk result (init_of self.new ≡ record (init_of self.old) {
          params = map parameter_of self.old.params.items
              ++ supported_extensions ((record { 0 = 130 }) ∷ (record { 0 = 192 }) ∷ []) ∷ [];
        }) }
        ensures err { OnErr result (init_of self.new ≡ init_of self.old) }
        ensures memory { IsOkUnless result ErrOutOfMemory }
    {
        let mut chunk_types = Vec::new(alloc);
        chunk_types.push(CT_RECONFIG)?;
        chunk_types.push(CT_FORWARD_TSN)?;
        let extensions = ParamKind::SupportedExtensions(ParamSupportedExtensions { chunk_types });
        self.params.push(extensions)?;
        Ok(())
    }
}

#[tactic(auto, using(crate::proofs::One::init_one, crate::proofs::Lengths::length_init_value))]
impl Chunk for ChunkInit {
    ghost wire = { λ c. init_chunk (init_of c) };

    ghost IsKind = { IsInit };

    ghost IsFresh = { λ _. Unit {0} };

    ghost fault = { InitFault };

    fn unmarshal(alloc: Global, raw: &Bytes) -> Result<Self> {
        let (header, value) = open_any(raw)?;
        if header.typ != CT_INIT && header.typ != CT_INIT_ACK {
            return Err(Error::ErrChunkTypeNotTypeInit);
        }
        if value.len() < INIT_CHUNK_MIN_LENGTH {
            return Err(Error::ErrChunkValueNotLongEnough);
        }
        if header.flags != 0 {
            return Err(Error::ErrChunkTypeInitFlagZero);
        }
        let params = read_params(alloc, share_value(raw, value, INIT_CHUNK_MIN_LENGTH)?)?;
        Ok(ChunkInit {
            is_ack: header.typ == CT_INIT_ACK,
            initiate_tag: read_u32(value, 0),
            advertised_receiver_window_credit: read_u32(value, 4),
            num_outbound_streams: read_u16(value, 8),
            num_inbound_streams: read_u16(value, 10),
            initial_tsn: read_u32(value, 12),
            params,
        })
    }

    fn value_length(&self) -> usize {
        params_length(&self.params, false).saturating_add(INIT_CHUNK_MIN_LENGTH)
    }

    fn chunk_type(&self) -> ChunkType {
        if self.is_ack { CT_INIT_ACK } else { CT_INIT }
    }

    fn flags(&self) -> u8 {
        0
    }

    fn put_value(&self, buf: &mut BytesMut) {
        put_u32(buf, self.initiate_tag);
        put_u32(buf, self.advertised_receiver_window_credit);
        put_u16(buf, self.num_outbound_streams);
        put_u16(buf, self.num_inbound_streams);
        put_u32(buf, self.initial_tsn);
        put_params(buf, &self.params, false);
    }

    fn check(&self) -> Result<()> {
        if self.initiate_tag == 0 {
            return Err(Error::ErrChunkTypeInitInitiateTagZero);
        }
        if self.num_inbound_streams == 0 {
            return Err(Error::ErrInitInboundStreamRequestZero);
        }
        if self.num_outbound_streams == 0 {
            return Err(Error::ErrInitOutboundStreamRequestZero);
        }
        if self.advertised_receiver_window_credit < 1500 {
            return Err(Error::ErrInitAdvertisedReceiver1500);
        }
        Ok(())
    }

    fn check_form(&self) -> Result<()> {
        Ok(())
    }
}
