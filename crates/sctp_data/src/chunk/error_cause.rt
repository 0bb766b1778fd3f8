//! The codes of error causes, which say what went wrong (RFC 4960 3.3.10).

ghost use Rattle.std.specs.Prelude.{◌≡◌};
ghost use Rattle.sctp_data.specs.Names.{cause_code_name};

use std::fmt;

/// The number that says what went wrong (RFC 4960 3.3.10). It prints as its name, or as `Unknown CauseCode: N`.
#[derive(Clone, Copy, Debug, PartialEq, Eq)]
pub struct ErrorCauseCode(pub u16);

/// A DATA chunk came on a stream that does not exist (RFC 4960 3.3.10.1).
pub const INVALID_STREAM_IDENTIFIER: ErrorCauseCode = ErrorCauseCode(1);

/// A parameter that has to be there is missing (RFC 4960 3.3.10.2).
pub const MISSING_MANDATORY_PARAMETER: ErrorCauseCode = ErrorCauseCode(2);

/// The cookie is too old (RFC 4960 3.3.10.3).
pub const STALE_COOKIE_ERROR: ErrorCauseCode = ErrorCauseCode(3);

/// There is no room for the association (RFC 4960 3.3.10.4).
pub const OUT_OF_RESOURCE: ErrorCauseCode = ErrorCauseCode(4);

/// An address cannot be resolved (RFC 4960 3.3.10.5).
pub const UNRESOLVABLE_ADDRESS: ErrorCauseCode = ErrorCauseCode(5);

/// A chunk of a type that is not known (RFC 4960 3.3.10.6).
pub const UNRECOGNIZED_CHUNK_TYPE: ErrorCauseCode = ErrorCauseCode(6);

/// A parameter has a value that is not allowed (RFC 4960 3.3.10.7).
pub const INVALID_MANDATORY_PARAMETER: ErrorCauseCode = ErrorCauseCode(7);

/// Parameters of types that are not known (RFC 4960 3.3.10.8).
pub const UNRECOGNIZED_PARAMETERS: ErrorCauseCode = ErrorCauseCode(8);

/// A DATA chunk has no user data (RFC 4960 3.3.10.9).
pub const NO_USER_DATA: ErrorCauseCode = ErrorCauseCode(9);

/// A COOKIE-ECHO came while the association was being shut down (RFC 4960 3.3.10.10).
pub const COOKIE_RECEIVED_WHILE_SHUTTING_DOWN: ErrorCauseCode = ErrorCauseCode(10);

/// The association is begun anew with addresses that were not there before (RFC 4960 3.3.10.11).
pub const RESTART_OF_AN_ASSOCIATION_WITH_NEW_ADDRESSES: ErrorCauseCode = ErrorCauseCode(11);

/// The user asked for the ABORT (RFC 4960 3.3.10.12).
pub const USER_INITIATED_ABORT: ErrorCauseCode = ErrorCauseCode(12);

/// The peer broke the protocol in a way that no other code names (RFC 4960 3.3.10.13).
pub const PROTOCOL_VIOLATION: ErrorCauseCode = ErrorCauseCode(13);

/// The code with a number.
impl From<u16> for ErrorCauseCode {
    ghost from_gives = { λ n c. c.0 ≡ n };

    fn from(v: u16) -> ErrorCauseCode {
        ErrorCauseCode(v)
    }
}

impl fmt::Display for ErrorCauseCode {
    ghost output = { cause_code_name };

    fn fmt<W: fmt::Write>(&self, f: &mut fmt::Formatter<W>) -> fmt::Result {
        match self.0 {
            1 => f.write_str("Invalid Stream Identifier"),
            2 => f.write_str("Missing Mandatory Parameter"),
            3 => f.write_str("Stale Cookie Error"),
            4 => f.write_str("Out Of Resource"),
            5 => f.write_str("Unresolvable IP"),
            6 => f.write_str("Unrecognized Chunk Type"),
            7 => f.write_str("Invalid Mandatory Parameter"),
            8 => f.write_str("Unrecognized Parameters"),
            9 => f.write_str("No User Data"),
            10 => f.write_str("Cookie Received While Shutting Down"),
            11 => f.write_str("Restart Of An Association With New Addresses"),
            12 => f.write_str("User Initiated Abort"),
            13 => f.write_str("Protocol Violation"),
            other => write!(f, "Unknown CauseCode: {other}"),
        }
    }
}
