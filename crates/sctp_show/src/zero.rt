//! Which ends accept packets with a checksum of zero (RFC 9653).

ghost use Rattle.std.specs.Prelude.{◌≡◌};
ghost use Rattle.sctp_show.specs.Sum as sums;

use crate::checksum::{Sum, is_wrong};
use crate::chunk_text::{u16_at, u32_at};
use sctp_dissect::dissection::{Dissection, Header, Item};
use sctp_dissect::params::{ParamItem, dissect_params};
use sctp_util::field::read_u16;
use std::alloc::{AllocError, Global};
use std::collections::BTreeSet;

/// How many tags are kept.
const MAX_TAGS: usize = 4_096;

/// The bytes of an INIT or INIT-ACK before its parameters.
const INIT_HEADER: usize = 20;

/// The parameter Zero Checksum Acceptable.
const ZERO_CHECKSUM: u16 = 0x8001;

/// The verification tags of ends that said in their INIT or INIT-ACK that they accept a checksum of zero: packets to them have these.
#[derive(Drop)]
pub struct ZeroTags {
    tags: BTreeSet<u32>,
}

/// The type of a parameter.
fn param_type(item: &ParamItem) -> u16
    ensures { result ≡ sums.param_type item.now }
{
    let bytes = item.bytes.as_slice();
    if bytes.len() < 2 {
        return 0;
    }
    read_u16(bytes, 0)
}

/// Whether one of the parameters says that zero is accepted.
fn has_zero_param(items: &[ParamItem]) -> bool
    ensures { result ≡ sums.has_zero_param items.now }
{
    items.iter().any(|item| param_type(item) == ZERO_CHECKSUM)
}

/// Whether a chunk is an INIT or INIT-ACK that says that zero is accepted.
fn says_zero(alloc: Global, item: &Item) -> Result<bool, AllocError> {
    let bytes = item.bytes.as_slice();
    let is_init = matches!(bytes.first(), Some(&1) | Some(&2));
    let length = (u16_at(bytes, 2) as usize).min(bytes.len());
    if !is_init || length < INIT_HEADER {
        return Ok(false);
    }
    let params = dissect_params(alloc, item.bytes.slice(INIT_HEADER..length)?)?;
    Ok(has_zero_param(&params.items))
}

impl ZeroTags {
    /// None yet.
    pub fn new(alloc: Global) -> Self {
        ZeroTags {
            tags: BTreeSet::new(alloc),
        }
    }

    /// Notes the tag that an INIT or INIT-ACK of a packet asks for, where its sender accepts a checksum of zero, and its own is right.
    pub fn note(&mut self, alloc: Global, seen: &Dissection) -> Result<(), AllocError> {
        let is_right = match &seen.header {
            Some(header) => header.has_right_checksum(),
            None => false,
        };
        let Some(item) = seen.items.first() else {
            return Ok(());
        };
        if !is_right || self.tags.len() >= MAX_TAGS || !says_zero(alloc, item)? {
            return Ok(());
        }
        match self.tags.insert(u32_at(item.bytes.as_slice(), 4)) {
            Ok(_) => Ok(()),
            Err(_) => Err(AllocError),
        }
    }

    /// Whether the end that a packet goes to accepts a checksum of zero.
    pub fn accepts(&self, header: &Option<Header>) -> bool {
        match header {
            Some(header) => self.tags.contains(&header.fields.verification_tag),
            None => false,
        }
    }

    /// Whether the checksum of a packet is wrong, where it was computed.
    pub fn is_wrong(&self, sum: Sum, seen: &Dissection) -> bool {
        is_wrong(sum, self.accepts(&seen.header), &seen.header)
    }
}
