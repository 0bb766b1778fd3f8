//! Names of the numbers in SCTP packets.

ghost use Rattle.std.specs.Prelude.{◌≡◌};
ghost use Rattle.sctp_show.specs.Names as names;

use crate::page::put_all;
use itoa::Buffer;
use std::alloc::AllocError;

/// The name of a chunk's type (RFC 4960 3.2, RFC 4895, RFC 5061, RFC 4820, RFC 6525, RFC 3758, RFC 8260).
#[derive(Clone, Copy)]
pub struct ChunkName(pub u8);

/// Whether a name is written as another one: in capitals or not, with hyphens or underscores.
fn is_same_name(known: &str, name: &str) -> bool {
    known.len() == name.len()
        && known.bytes().zip(name.bytes()).all(|(own, byte)| own
            == if byte == b'_' {
                b'-'
            } else {
                byte.to_ascii_uppercase()
            })
}

impl ChunkName {
    /// The name, where the type has one.
    pub fn known(self) -> Option<&'static str> {
        let name = match self.0 {
            0 => "DATA",
            1 => "INIT",
            2 => "INIT-ACK",
            3 => "SACK",
            4 => "HEARTBEAT",
            5 => "HEARTBEAT-ACK",
            6 => "ABORT",
            7 => "SHUTDOWN",
            8 => "SHUTDOWN-ACK",
            9 => "ERROR",
            10 => "COOKIE-ECHO",
            11 => "COOKIE-ACK",
            12 => "ECNE",
            13 => "CWR",
            14 => "SHUTDOWN-COMPLETE",
            15 => "AUTH",
            16 => "NR-SACK",
            64 => "I-DATA",
            128 => "ASCONF-ACK",
            129 => "PKTDROP",
            130 => "RE-CONFIG",
            132 => "PAD",
            192 => "FORWARD-TSN",
            193 => "ASCONF",
            194 => "I-FORWARD-TSN",
            _ => return None,
        };
        Some(name)
    }

    /// Appends the name, or `type-` and the number.
    pub fn put(self, text: &mut String) -> Result<(), AllocError> {
        match self.known() {
            Some(name) => text.push_str(name),
            None => put_all(text, &["type-", Buffer::new().format(self.0)]),
        }
    }

    /// The type with this name, in capitals or not, with hyphens or, as tshark has them, with underscores.
    pub fn of(name: &str) -> Option<u8> {
        for typ in 0..=255u8 {
            if let Some(known) = ChunkName(typ).known()
                && is_same_name(known, name)
            {
                return Some(typ);
            }
        }
        None
    }
}

/// The name of a payload protocol identifier of WebRTC (RFC 8831 8), or nothing where it has none.
pub fn payload_name(identifier: u32) -> &'static str
    ensures { result.now ≡ names.payload_name identifier }
{
    match identifier {
        50 => "DCEP",
        51 => "String",
        52 => "Binary Partial",
        53 => "Binary",
        54 => "String Partial",
        56 => "String Empty",
        57 => "Binary Empty",
        _ => "",
    }
}

/// The name of a cause of an ABORT or ERROR (RFC 9260 3.3.10, RFC 5061 4.3, RFC 4895 4.1), or nothing where it has none.
pub fn cause_name(code: u16) -> &'static str {
    match code {
        1 => "Invalid Stream Identifier",
        2 => "Missing Mandatory Parameter",
        3 => "Stale Cookie Error",
        4 => "Out Of Resource",
        5 => "Unresolvable IP",
        6 => "Unrecognized Chunk Type",
        7 => "Invalid Mandatory Parameter",
        8 => "Unrecognized Parameters",
        9 => "No User Data",
        10 => "Cookie Received While Shutting Down",
        11 => "Restart Of An Association With New Addresses",
        12 => "User Initiated Abort",
        13 => "Protocol Violation",
        160 => "Request to Delete Last Remaining IP Address",
        161 => "Operation Refused Due to Resource Shortage",
        162 => "Request to Delete Source IP Address",
        163 => "Association Aborted Due to Illegal ASCONF-ACK",
        164 => "Request Refused - No Authorization",
        261 => "Unsupported HMAC Identifier",
        _ => "",
    }
}

/// Appends the name of a cause, or `cause-` and its code.
pub fn put_cause_name(text: &mut String, code: u16) -> Result<(), AllocError> {
    let name = cause_name(code);
    if name.is_empty() {
        return put_all(text, &["cause-", Buffer::new().format(code)]);
    }
    text.push_str(name)
}

/// The name of a parameter of INIT, INIT-ACK, HEARTBEAT and RE-CONFIG (RFC 4960 3.3.2 and 3.3.3, RFC 3758 3.1, RFC 4895 3, RFC 4820 3.2,
/// RFC 5061 4.2, RFC 6525 4), or nothing where it has none.
pub fn parameter_name(typ: u16) -> &'static str {
    match typ {
        1 => "Heartbeat Info",
        5 => "IPv4 Address",
        6 => "IPv6 Address",
        7 => "State Cookie",
        8 => "Unrecognized Parameter",
        9 => "Cookie Preservative",
        11 => "Host Name Address",
        12 => "Supported Address Types",
        13 => "Outgoing SSN Reset Request",
        14 => "Incoming SSN Reset Request",
        15 => "SSN/TSN Reset Request",
        16 => "Re-configuration Response",
        17 => "Add Outgoing Streams Request",
        18 => "Add Incoming Streams Request",
        32768 => "ECN Capable",
        32769 => "Zero Checksum Acceptable",
        32770 => "Random",
        32771 => "Chunk List",
        32772 => "Requested HMAC Algorithm",
        32773 => "Padding",
        32776 => "Supported Extensions",
        49152 => "Forward-TSN-Supported",
        49153 => "Add IP Address",
        49154 => "Delete IP Address",
        49155 => "Error Cause Indication",
        49156 => "Set Primary Address",
        49157 => "Success Indication",
        49158 => "Adaptation Layer Indication",
        _ => "",
    }
}
