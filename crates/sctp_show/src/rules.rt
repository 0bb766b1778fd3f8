//! Which rule a chunk breaks that the reader of packets does not read.

ghost use Rattle.std.specs.Prelude.{◌≡◌};
ghost use Rattle.sctp_show.specs.Rules as rules;

use sctp_dissect::dissection::{Fault, Item, RawChunk, Reading};
use sctp_util::error::Error;
use sctp_util::field::read_u16;
use sctp_util::util::get_padding_size;

/// The fewest bytes of a chunk of a type that the reader of packets has no chunk for: ECNE and CWR (RFC 4960 Appendix A), AUTH (RFC 4895 4.1),
/// I-DATA (RFC 8260 2.1), ASCONF-ACK and ASCONF (RFC 5061 4.1).
fn least_length(typ: u8) -> u16
    ensures { result ≡ rules.least_length typ }
{
    match typ {
        12 | 13 | 15 | 128 => 8,
        64 => 20,
        193 => 16,
        _ => 4,
    }
}

/// Whether bytes are causes, each padded to a multiple of four bytes (RFC 9260 3.2.1, 3.3.10). The padding of the last one may be missing. The reader
/// of packets looks for no padding, so it refuses some that are.
#[tactic(auto, using(crate::proofs::Causes::causes_end, crate::proofs::Causes::causes_cut, crate::proofs::Causes::causes_low, crate::proofs::Causes::causes_past, crate::proofs::Causes::causes_next, crate::proofs::Causes::causes_none))]
fn are_causes(value: &[u8]) -> bool
    ensures { result ≡ rules.are_causes value.now }
{
    let mut at = 0;
    for _passed in 0..value.len() {
        if value.len() <= at {
            return true;
        }
        if value.len() < at + 4 {
            return false;
        }
        let length = read_u16(value, at + 2) as usize;
        if length < 4 {
            return false;
        }
        if value.len() < at + length {
            return false;
        }
        at += length + get_padding_size(length);
    }
    false
}

/// Whether a chunk that the reader of packets does not read breaks a rule. Types and parameters that it does not know break none, nor do
/// flags of an INIT, which are ignored (RFC 9260 3.3.2), nor other HMACs than it knows (RFC 4895 3.3), nor causes between which there is padding.
pub fn breaks_rule(raw: &RawChunk) -> bool
    ensures { result ≡ rules.breaks_rule raw.now }
{
    match raw.refusal {
        Error::ErrUnmarshalUnknownChunkType => raw.length < least_length(raw.typ.0),
        Error::ErrParamTypeUnhandled { .. } => false,
        Error::ErrChunkTypeInitFlagZero => false,
        Error::ErrInvalidAlgorithmType => false,
        Error::ErrErrorCauseTooSmall => !are_causes(raw.value.as_slice()),
        _ => true,
    }
}

/// The rule that a refusal tells of, of a chunk of this type.
fn rule_of(typ: u8, refusal: Error) -> &'static str {
    match (refusal, typ) {
        (Error::ErrChunkHeaderPaddingNonZero, _) => "RFC 9260 3.2: padding is not zero",
        (Error::ErrParseSctpChunkNotEnoughData, _) => "RFC 9260 3.2: padding is missing",
        (Error::ErrParamHeaderTooShort, _) => "RFC 9260 3.2.1: wrong length of a parameter",
        (Error::ErrChunkPayloadSmall, _) => "RFC 9260 3.3.1: too short",
        (Error::ErrChunkValueNotLongEnough, 2) => "RFC 9260 3.3.3: too short",
        (Error::ErrChunkValueNotLongEnough, _) => "RFC 9260 3.3.2: too short",
        (Error::ErrSupportedAddressTypesParamInvalidLength, _) => {
            "RFC 9260 3.3.2.1: wrong length of Supported Address Types"
        }
        (Error::ErrSackSizeNotLargeEnoughInfo, _) => "RFC 9260 3.3.4: too short for its counts",
        (Error::ErrHeartbeatNotLongEnoughInfo, 5) => "RFC 9260 3.3.6: no Heartbeat Info",
        (Error::ErrHeartbeatNotLongEnoughInfo, _) => "RFC 9260 3.3.5: no Heartbeat Info",
        (Error::ErrHeartbeatParam, 5) => "RFC 9260 3.3.6: another parameter than Heartbeat Info",
        (Error::ErrHeartbeatParam, _) => "RFC 9260 3.3.5: another parameter than Heartbeat Info",
        (Error::ErrInvalidChunkSize, _) => "RFC 9260 3.3.8: length is not 8",
        (Error::ErrErrorCauseTooSmall, _) => "RFC 9260 3.3.10: wrong length of a cause",
        (Error::ErrSsnResetRequestParamTooShort, _) => "RFC 6525 4.1: too short",
        (Error::ErrSsnResetRequestParamInvalidLength, _) => "RFC 6525 4.1: half a stream number",
        (Error::ErrReconfigRespParamTooShort, _) => "RFC 6525 4.4: too short",
        (Error::ErrChunkTooShort, 192) => "RFC 3758 3.2: wrong length",
        (Error::ErrChunkTooShort, 194) => "RFC 8260 2.3.1: wrong length",
        (Error::ErrChunkTooShort, _) => "RFC 6525 3.1: too short",
        (_, 12) | (_, 13) => "RFC 4960 Appendix A: too short",
        (_, 15) => "RFC 4895 4.1: too short",
        (_, 64) => "RFC 8260 2.1: too short",
        (_, 128) => "RFC 5061 4.1.2: too short",
        (_, 193) => "RFC 5061 4.1.1: too short",
        _ => "RFC 9260 3.2: wrong length",
    }
}

/// The rule that a refused chunk breaks. DATA and I-DATA that break no other one have no user data.
pub fn rule_in(item: &Item) -> &'static str {
    match &item.reading {
        Reading::Raw(raw) if breaks_rule(raw) => rule_of(raw.typ.0, raw.refusal),
        _ => "RFC 9260 6.2: no user data",
    }
}

/// The rule that bytes break which are left over.
pub fn rule_of_rest(fault: Fault) -> &'static str {
    match fault {
        Fault::ShortPacket => "RFC 9260 3: fewer than 12 bytes",
        Fault::ShortHeader => "RFC 9260 3.2: fewer than 4 bytes left over",
        Fault::LengthTooSmall => "RFC 9260 3.2: chunk length under 4",
        Fault::LengthPastEnd => "RFC 9260 3.2: chunk length past the end",
    }
}
