//! PDUs that Wireshark exports (link type 252): tags, and behind them the PDU.

ghost use Rattle.std.specs.Prelude.{◌≡◌, ◌≤◌, ◌+◌, ℕ, List, length, IfOk, IfErr, IfSome};
ghost use Rattle.sctp_util.specs.Field.{u16_at};
ghost use Rattle.sctp_capture.specs.Exported as exported;
ghost use Rattle.sctp_capture.specs.Exported.{IsExported, IsFour, IsSix, IsAddress, AreExportedEnds};

use crate::frame::{ipv4_at, ipv6_at};
use crate::lead::begins_so;
use crate::record::Fault;
use sctp_util::field::read_u16;
use std::net::IpAddr;

/// How many tags are looked at.
const MAX_TAGS: usize = 64;

/// The numbers of tags: the last one, and those of the dissector's name and of addresses.
const LAST: u16 = 0;

const DISSECTOR: u16 = 12;

const SOURCE_4: u16 = 20;

const DESTINATION_4: u16 = 21;

const SOURCE_6: u16 = 22;

const DESTINATION_6: u16 = 23;

/// The name of the dissector of SCTP.
const SCTP: &str = "sctp";

/// Where the first tag of a number stands, if it is all there, and before the end of the tags.
#[tactic(auto, using(crate::proofs::Tags::tag_cut, crate::proofs::Tags::tag_here, crate::proofs::Tags::tag_last, crate::proofs::Tags::tag_next, crate::proofs::Tags::tag_none))]
fn tag_in(number: u16, frame: &[u8]) -> Option<usize>
    ensures is { result ≡ exported.tag_in number frame.now }
    ensures within { IfSome result (λ at. exported.tag_end frame.now at ≤ length frame.now) }
{
    let mut at = 0;
    for _passed in 0..MAX_TAGS {
        if frame.len() < at + 4 {
            return None;
        }
        let end = at + 4 + read_u16(frame, at + 2) as usize;
        if frame.len() < end {
            return None;
        }
        let found = read_u16(frame, at);
        if found == number {
            return Some(at);
        }
        if found == LAST {
            return None;
        }
        at = end;
    }
    None
}

/// Whether a value is the name of the dissector of SCTP.
fn names_sctp(value: &[u8]) -> bool
    ensures { result ≡ exported.names_sctp value.now }
{
    begins_so(SCTP.as_bytes(), value) && (value.len() == 4 || value[4] == 0)
}

/// Whether this tag has the name of the dissector of SCTP.
fn is_named_by(frame: &[u8], tag: Option<usize>) -> bool
    requires { IfSome tag (λ at. exported.tag_end frame.now at ≤ length frame.now) }
    ensures { result ≡ exported.is_named_by frame.now tag }
{
    match tag {
        Some(at) => names_sctp(&frame[at + 4..at + 4 + read_u16(frame, at + 2) as usize]),
        None => false,
    }
}

/// The datagram behind the tags of a PDU that goes to the dissector of SCTP.
pub fn exported_pdu(frame: &[u8]) -> Result<&[u8], Fault>
    ensures found { IfOk result (λ bytes. IsExported frame.now bytes.now) }
    ensures refused { IfErr result (λ _. (bytes : List ℕ) → IsExported frame.now bytes → ⊥) }
{
    if !is_named_by(frame, tag_in(DISSECTOR, frame)) {
        return Err(Fault::OtherProtocol);
    }
    match tag_in(LAST, frame) {
        Some(at) => Ok(&frame[at + 4 + read_u16(frame, at + 2) as usize..]),
        None => Err(Fault::Short),
    }
}

/// The address that a tag has in four bytes.
fn four_in(number: u16, frame: &[u8]) -> Option<IpAddr>
    ensures { IfSome result (IsFour frame.now number) }
{
    match tag_in(number, frame) {
        Some(at) if read_u16(frame, at + 2) == 4 => Some(ipv4_at(frame, at + 4)),
        _ => None,
    }
}

/// The address that a tag has in sixteen bytes.
fn six_in(number: u16, frame: &[u8]) -> Option<IpAddr>
    ensures { IfSome result (IsSix frame.now number) }
{
    match tag_in(number, frame) {
        Some(at) if read_u16(frame, at + 2) == 16 => Some(ipv6_at(frame, at + 4)),
        _ => None,
    }
}

/// The address that the one tag has in four bytes, or the other one in sixteen.
fn address_in(frame: &[u8], four: u16, six: u16) -> Option<IpAddr>
    ensures { IfSome result (IsAddress frame.now four six) }
{
    match four_in(four, frame) {
        Some(address) => Some(address),
        None => six_in(six, frame),
    }
}

/// The addresses that tags say, if they say both.
pub fn exported_ends(frame: &[u8]) -> Option<(IpAddr, IpAddr)>
    ensures { AreExportedEnds frame.now result }
{
    match (
        address_in(frame, SOURCE_4, SOURCE_6),
        address_in(frame, DESTINATION_4, DESTINATION_6),
    ) {
        (Some(source), Some(destination)) => Some((source, destination)),
        _ => None,
    }
}
