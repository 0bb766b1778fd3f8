//! Error causes, read where they lie (RFC 9260 3.3.10).

ghost use Rattle.std.specs.Prelude.{◌≡◌, ◌+◌, ◌≤◌, IfOk, IfErr, length, drop};
ghost use Rattle.sctp_util.specs.declared.error.Error.TheVariants.{ErrErrorCauseTooSmall};
ghost use Rattle.sctp_chunks.specs.ErrorCause.{IsCause};
ghost use Rattle.sctp_datagram.specs.Causes.{TellsCause};

use crate::params::param_at;
use sctp_util::error::{Error, Result};

/// Where an error cause lies: its value is `length` bytes from `at` on, and the next cause begins at `next`.
#[derive(Clone, Copy, Debug, PartialEq, Eq)]
pub struct CausePlace {
    pub code: u16,
    pub at: usize,
    pub length: usize,
    pub next: usize,
}

/// Reads the header of the cause that begins at a place, of any code and with any value. Refuses with `ErrErrorCauseTooSmall`, exactly
/// where none begins there. It takes no memory, and costs the same for any value.
pub fn cause_at(bytes: &[u8], at: usize) -> Result<CausePlace>
    ensures read { IfOk result (TellsCause bytes.now at) }
    // A walk from one cause to the next one moves on, and stays in the bytes.
    ensures next { IfOk result (λ p. (at + 4 ≤ p.next) × (p.next ≤ length bytes.now)) }
    ensures fault { IfErr result
        (λ e. (e ≡ ErrErrorCauseTooSmall) × (IsCause (drop at bytes.now) → ⊥)) }
{
    // A cause is framed as a parameter is.
    match param_at(bytes, at) {
        Ok(place) => Ok(CausePlace {
            code: place.typ,
            at: place.at,
            length: place.length,
            next: place.next,
        }),
        Err(_) => Err(Error::ErrErrorCauseTooSmall),
    }
}
