//! Messages that are put together from I-DATA chunks (RFC 8260).

ghost use Rattle.std.specs.Prelude.{◌≡◌, ◌+◌, ◌*◌, ◌≤◌, length, IfOk};
ghost use Rattle.std.specs.BTreeMap as trees;
ghost use Rattle.sctp_util.specs.Each.{each};
ghost use Rattle.sctp_follow.specs.Interleave as inter;
ghost use Rattle.sctp_follow.specs.Interleave.{IsFragmentOf, IsMessage, payload_of};

use crate::packet::Arrived;
use sctp_util::field::{read_u16, read_u32};
use std::alloc::{AllocError, Global};
use std::collections::BTreeMap;

/// The type of I-DATA (RFC 8260 2.1).
const I_DATA: u8 = 64;

/// Which message a fragment is of.
#[derive(Clone, Copy, Debug, PartialEq, Eq)]
pub struct Name {
    pub stream: u16,
    pub unordered: bool,
    /// The message identifier.
    pub number: u32,
}

/// A fragment of a message, as an I-DATA chunk has it.
#[derive(Drop)]
pub struct Fragment {
    pub tsn: u32,
    /// Its fragment sequence number: 0 of the first one.
    pub place: u32,
    /// Whether it ends the message.
    pub is_last: bool,
    /// The payload protocol identifier, which the first one has alone.
    pub identifier: u32,
    pub arrived: Arrived,
    pub bytes: Vec<u8>,
}

/// A message that is there from its first fragment to its last one.
#[derive(Drop)]
pub struct Whole {
    pub name: Name,
    /// Its fragments, by their places.
    pub fragments: BTreeMap<u32, Fragment>,
    ghost message: { IsMessage (trees.values fragments) },
}

/// Whether the bytes of a chunk are I-DATA with user data, of which the place 0 is said by the flag alone.
pub fn is_i_data(bytes: &[u8]) -> bool
    ensures { result ≡ inter.is_i_data bytes.now }
{
    bytes.len() >= 20
        && bytes[0] == I_DATA
        && read_u16(bytes, 2) > 20
        && (bytes[1] / 2 % 2 == 1 || read_u32(bytes, 16) > 0)
}

/// Which message the bytes of an I-DATA chunk are of.
/// Precondition: its head is there.
pub fn name_of(bytes: &[u8]) -> Name
    requires { 20 ≤ length bytes.now }
    ensures { result ≡ inter.name_of bytes.now }
{
    Name {
        stream: read_u16(bytes, 8),
        unordered: bytes[1] / 4 % 2 == 1,
        number: read_u32(bytes, 12),
    }
}

/// The fragment that the bytes of an I-DATA chunk are. Refuses only for memory.
/// Precondition: its head is there.
pub fn fragment_of(alloc: Global, bytes: &[u8], arrived: Arrived) -> Result<Fragment, AllocError>
    requires { 20 ≤ length bytes.now }
    ensures { IfOk result (IsFragmentOf bytes.now) }
{
    let (is_first, field) = (bytes[1] / 2 % 2 == 1, read_u32(bytes, 16));
    let end = (read_u16(bytes, 2) as usize).min(bytes.len()).max(20);
    Ok(Fragment {
        tsn: read_u32(bytes, 4),
        place: if is_first { 0 } else { field },
        is_last: bytes[1] % 2 == 1,
        identifier: if is_first { field } else { 0 },
        arrived,
        bytes: Vec::from_slice(alloc, &bytes[20..end])?,
    })
}

/// The messages that the bytes of an I-FORWARD-TSN name, as many as are there: each with those of its stream before it is passed (RFC 8260
/// 2.3.1). Refuses only for memory.
#[tactic(auto, using(sctp_util::proofs::EachAt::each_none, sctp_util::proofs::EachAt::each_next))]
pub fn names_in(alloc: Global, bytes: &[u8]) -> Result<Vec<Name>, AllocError>
    ensures { IfOk result (λ names. names.items
        ≡ each (inter.name_count bytes.now) (λ i. inter.name_at bytes.now (8 + 8 * i))) }
{
    let mut names = Vec::new(alloc);
    let end = if bytes.len() < 8 {
        0
    } else {
        (read_u16(bytes, 2) as usize).min(bytes.len())
    };
    for i in 0..end.saturating_sub(8) / 8 {
        names.push(Name {
            stream: read_u16(bytes, 8 + 8 * i),
            unordered: read_u16(bytes, 8 + 8 * i + 2) % 2 == 1,
            number: read_u32(bytes, 8 + 8 * i + 4),
        })?;
    }
    Ok(names)
}

/// Whether a fragment fits at a place of a message of so many.
pub(crate) fn fits(fragment: &Fragment, place: usize, count: usize) -> bool
    ensures { result ≡ inter.fits fragment.now place count }
{
    let is_end = count.saturating_sub(place) == 1;
    fragment.place as usize == place && fragment.is_last == is_end
}

impl Whole {
    /// The bytes of the message. Refuses only for memory.
    pub fn payload(&self, alloc: Global) -> Result<Vec<u8>, AllocError>
        ensures { IfOk result (λ bytes.
            bytes.items ≡ payload_of (trees.values self.now.fragments)) }
    {
        let mut bytes = Vec::new(alloc);
        for fragment in self.fragments.values() {
            bytes.extend_from_slice(&fragment.bytes)?;
        }
        Ok(bytes)
    }
}
