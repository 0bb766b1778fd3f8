//! SCTP's lower layer for callers in C: packets, and the two halves of an association behind handles. The header is `include/sctpr.h`.
#![tactic(auto)]

ghost use Rattle.std.specs.Prelude.{◌≡◌};

mod bytes_out;
pub mod callers;
pub mod causes;
pub mod code;
mod data_out;
mod fills;
pub mod names;
pub mod packet;
mod parts;
pub mod reading;
pub mod receiver;
pub mod reconfig;
pub mod requests;
pub mod sender;
pub mod writing;

/// The version of the surface for C: major << 16 | minor << 8 | patch, here 0.1.0.
#[unsafe(no_mangle)]
pub extern "C" fn sctpr_version() -> u32
    ensures { result ≡ 256 }
{
    0x0000_0100
}
