//! Error causes, which ABORT and ERROR carry (RFC 4960 3.3.10).

ghost use Rattle.std.specs.Prelude.{◌≡◌, ◌≢◌, ◌⊎◌, ◌<◌, IfOk, IfErr, length};
ghost use Rattle.sctp_util.specs.Outcome.{OrMemory};
ghost use Rattle.sctp_util.specs.declared.error.Error.TheVariants.{ErrLengthTooLarge};
ghost use Rattle.sctp_chunks.specs.ErrorCause.{IsCause};
ghost use Rattle.sctp_c.specs.Causes.{IsPaddedCause, TellsCause};
ghost use Rattle.sctp_c.specs.Out.{padded, IsWritten, IsTooShort};

use crate::bytes_out::put_padded;
use crate::code::{SCTPR_OK, of_error};
use bytes::Bytes;
use sctp_chunks::chunk::error_cause::{ErrorCause, ErrorCauseCode};
use sctp_datagram::causes::cause_at;
use sctp_util::error::Result;
use std::alloc::Global;

/// A cause: its value is `length` bytes from byte 4 on, and the next one begins at byte `next` (RFC 4960 3.3.10).
#[repr(C)]
#[derive(Clone, Copy)]
pub struct SctpCause {
    pub length: usize,
    pub next: usize,
    pub code: u16,
}

/// Reads the error cause that the bytes begin with, as the value of an ABORT or ERROR does. Refuses with the code of
/// `ErrErrorCauseTooSmall`, exactly where they begin with none, and `cause` stays then.
#[unsafe(no_mangle)]
pub extern "C" fn sctpr_read_cause(_alloc: Global, raw: &[u8], cause: &mut SctpCause) -> u32
    ensures codes { (result ≡ 0) ⊎ ((result ≡ 16) ⊎ (result ≡ 80)) }
    ensures read { result ≡ 0 → TellsCause raw.now cause.new }
    ensures fault { result ≡ 80 → IsCause raw.now → ⊥ }
    // It takes no memory.
    ensures granted { result ≢ 16 }
    ensures kept { result ≢ 0 → cause.new ≡ cause.old }
{
    match cause_at(raw, 0) {
        Ok(place) => {
            *cause = SctpCause {
                length: place.length,
                next: place.next,
                code: place.code,
            };
            SCTPR_OK
        }
        Err(e) => of_error(e),
    }
}

// The cause of a code and a value.
fn cause_of(alloc: Global, code: u16, value: &[u8]) -> Result<Bytes>
    ensures ok { IfOk result (λ b. IsPaddedCause code value.now (padded b)) }
    ensures fault { IfErr result
        (λ e. OrMemory e ((e ≡ ErrLengthTooLarge) × (65531 < length value.now))) }
{
    let cause = ErrorCause {
        code: ErrorCauseCode(code),
        raw: Bytes::copy_from_slice(alloc, value)?,
    };
    cause.marshal(alloc)
}

/// Writes an error cause with its padding. `written` becomes how many bytes that is, also where it refuses with `SCTPR_SHORT_BUFFER`.
/// Refuses with `SCTPR_LENGTH_TOO_LARGE`, exactly where the value has more than 65,531 bytes, and with `SCTPR_NO_MEMORY`; then it changes
/// nothing. The readers of ABORT and ERROR look for no padding between causes: so all but the last are to be multiples of four long.
#[unsafe(no_mangle)]
pub extern "C" fn sctpr_write_cause(
    alloc: Global,
    code: u16,
    value: &[u8],
    out: &mut [u8],
    written: &mut usize,
) -> u32
    ensures codes { (result ≡ 0) ⊎ ((result ≡ 16) ⊎ ((result ≡ 17) ⊎ (result ≡ 19))) }
    ensures done { result ≡ 0
        → IsWritten (IsPaddedCause code value.now) out.old out.new written.new }
    ensures short { result ≡ 17
        → IsTooShort (IsPaddedCause code value.now) out.old out.new written.new }
    ensures large { result ≡ 19 → 65531 < length value.now }
    ensures kept { result ≢ 0 → result ≢ 17
        → (out.new ≡ out.old) × (written.new ≡ written.old) }
{
    match cause_of(alloc, code, value) {
        Ok(bytes) => put_padded(out, written, &bytes),
        Err(e) => of_error(e),
    }
}
