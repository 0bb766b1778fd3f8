//! The algorithms that a sender asks its peer to authenticate chunks by (RFC 4895 3.3).

ghost use Rattle.std.specs.Prelude.{◌≡◌, ◌+◌, ◌*◌, ◌/◌, ◌≤◌, ◌<◌, ◌++◌, Some, length, IfOk, IfErr};
ghost use Rattle.sctp_util.specs.declared.error.Error.TheVariants.{ErrInvalidAlgorithmType};
ghost use Rattle.sctp_util.specs.Outcome.{OrMemory};
ghost use Rattle.std.specs.List.{flat_map};
ghost use Rattle.sctp_params.specs.HmacAlgorithm.{algorithm_from, algorithm_name, algorithm_number, algorithm_encoding, ReadsAlgorithms};
ghost use Rattle.sctp_params.specs.Param.{requested_hmac_algorithm};
ghost use Rattle.sctp_params.specs.ParamKinds.{IsRequestedHmacAlgorithm};
ghost use Rattle.sctp_params.specs.ParamFault.{AlgorithmsFault, HasOtherAlgorithm};

use super::param_header::open_param;
use super::param_type::ParamType;
use super::{Param, write_joined};
use bytes::{Bytes, BytesMut};
use sctp_util::error::{Error, Result};
use sctp_util::field::{put_u16, read_u16};
use std::alloc::Global;
use std::fmt;

/// How chunks are authenticated (RFC 4895 3.3). Any other number than 0 to 3 is
/// `Unknown`, which is written as 4. Only 1 and 3 are read in a parameter.
#[derive(Clone, Copy, Debug, PartialEq, Eq)]
pub enum HmacAlgorithm {
    /// Reserved.
    HmacResv1 = 0,
    /// SHA-1, which each endpoint that authenticates has to support. It prints as `HMAC SHA-128`.
    HmacSha128 = 1,
    /// Reserved.
    HmacResv2 = 2,
    /// SHA-256.
    HmacSha256 = 3,
    /// Another number.
    Unknown,
}

impl fmt::Display for HmacAlgorithm {
    ghost output = { λ a. Some (algorithm_name a) };

    fn fmt<W: fmt::Write>(&self, f: &mut fmt::Formatter<W>) -> fmt::Result {
        f.write_str(match self {
            HmacAlgorithm::HmacResv1 => "HMAC Reserved (0x00)",
            HmacAlgorithm::HmacSha128 => "HMAC SHA-128",
            HmacAlgorithm::HmacResv2 => "HMAC Reserved (0x02)",
            HmacAlgorithm::HmacSha256 => "HMAC SHA-256",
            HmacAlgorithm::Unknown => "Unknown HMAC Algorithm",
        })
    }
}

/// The algorithm with a number, `Unknown` for a number past 3.
#[tactic(auto, unfolding(crate::specs::HmacAlgorithm::algorithm_from))]
impl From<u16> for HmacAlgorithm {
    ghost from_gives = { λ n a. a ≡ algorithm_from n };

    fn from(v: u16) -> HmacAlgorithm {
        match v {
            0 => HmacAlgorithm::HmacResv1,
            1 => HmacAlgorithm::HmacSha128,
            2 => HmacAlgorithm::HmacResv2,
            3 => HmacAlgorithm::HmacSha256,
            _ => HmacAlgorithm::Unknown,
        }
    }
}

/// The number of an algorithm, 4 for `Unknown`.
#[tactic(auto, unfolding(crate::specs::HmacAlgorithm::algorithm_number))]
impl From<HmacAlgorithm> for u16 {
    ghost from_gives = { λ a n. n ≡ algorithm_number a };

    fn from(v: HmacAlgorithm) -> u16 {
        v as u16
    }
}

/// The algorithms, the preferred one first (RFC 4895 3.3, type 32772). The value is
/// two bytes for each; a last odd byte is ignored.
/// Refuses another number than 1 and 3 with `ErrInvalidAlgorithmType`.
#[derive(Debug, Drop, PartialEq, Eq)]
pub struct ParamRequestedHmacAlgorithm {
    pub available_algorithms: Vec<HmacAlgorithm>,
}

impl fmt::Display for ParamRequestedHmacAlgorithm {
    fn fmt<W: fmt::Write>(&self, f: &mut fmt::Formatter<W>) -> fmt::Result {
        write!(f, "{} ", self.param_type())?;
        write_joined(f, &self.available_algorithms)
    }
}

/// Reads the algorithms, two bytes each. A last odd byte is ignored.
#[tactic(auto, using(sctp_util::proofs::EachAt::each_none, sctp_util::proofs::EachAt::each_next))]
fn read_algorithms(alloc: Global, value: &[u8]) -> Result<Vec<HmacAlgorithm>>
    ensures found { IfOk result (λ v. ReadsAlgorithms value.now v.items) }
    ensures fault { IfErr result
        (λ e. OrMemory e ((e ≡ ErrInvalidAlgorithmType) × HasOtherAlgorithm value.now)) }
{
    let mut algorithms = Vec::new(alloc);
    for i in 0..value.len() / 2 {
        let number = read_u16(value, 2 * i);
        if number != 1 && number != 3 {
            return Err(Error::ErrInvalidAlgorithmType);
        }
        algorithms.push(HmacAlgorithm::from(number))?;
    }
    Ok(algorithms)
}

/// Appends the numbers of algorithms, two bytes each.
/// Precondition: the buffer has room for them.
fn put_algorithms(buf: &mut BytesMut, algorithms: &[HmacAlgorithm])
    requires { 2 * length algorithms.now ≤ buf.old.spare }
    ensures items { buf.new.items ≡ buf.old.items ++ flat_map algorithm_encoding algorithms.now }
    ensures spare { buf.new.spare + 2 * length algorithms.now ≡ buf.old.spare }
{
    for algorithm in algorithms {
        put_u16(buf, (*algorithm).into());
    }
}

#[tactic(auto, using(crate::proofs::ParamOne::requested_hmac_algorithm_one, crate::proofs::ParamLengths::length_algorithms_value))]
impl Param for ParamRequestedHmacAlgorithm {
    ghost wire = { λ p. requested_hmac_algorithm p.available_algorithms.items };

    ghost IsKind = { IsRequestedHmacAlgorithm };

    ghost fault = { AlgorithmsFault };

    fn unmarshal(alloc: Global, raw: &Bytes) -> Result<Self> {
        let (_header, value) = open_param(raw)?;
        let available_algorithms = read_algorithms(alloc, value)?;
        Ok(ParamRequestedHmacAlgorithm {
            available_algorithms,
        })
    }

    fn param_type(&self) -> ParamType {
        ParamType::ReqHmacAlgo
    }

    fn value_length(&self) -> usize {
        2 * self.available_algorithms.len()
    }

    #[tactic(auto, using(crate::proofs::ParamLengths::length_algorithms_value), unfolding(crate::specs::HmacAlgorithm::algorithms_value))]
    fn put_value(&self, buf: &mut BytesMut) {
        put_algorithms(buf, &self.available_algorithms);
    }

    fn try_clone(&self, alloc: Global) -> Result<Self> {
        Ok(ParamRequestedHmacAlgorithm {
            available_algorithms: Vec::from_slice(alloc, &self.available_algorithms)?,
        })
    }
}
