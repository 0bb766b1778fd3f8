//! What is known of a packet from those before it.

ghost use Rattle.std.specs.Prelude.{◌≡◌};
ghost use Rattle.sctp_show.specs.declared.page.Form.TheVariants.{Text, Json};

use crate::checksum::Sum;
use crate::mark::Side;
use crate::page::Form;
use crate::zero::ZeroTags;
use sctp_dissect::dissection::Dissection;
use std::alloc::{AllocError, Global};
use std::net::IpAddr;

/// The TSNs that those of a packet are printed relative to: 0 where they are printed as they are.
#[derive(Clone, Copy, Debug, PartialEq, Eq)]
pub struct Bases {
    /// For what its sender sends: DATA, I-DATA, FORWARD-TSN, and the initial TSN of INIT and INIT-ACK.
    pub own: u32,
    /// For what its sender received: SACK and SHUTDOWN.
    pub other: u32,
}

/// TSNs are printed as they are.
pub const ABSOLUTE: Bases = Bases { own: 0, other: 0 };

/// What is known of a packet from those before it.
#[derive(Clone, Copy, Debug, PartialEq, Eq)]
pub struct Known {
    pub bases: Bases,
    /// Whether a TSN of its DATA or I-DATA came before.
    pub is_repeated: bool,
    /// Which side of its association sent it, where that is known.
    pub side: Option<Side>,
    /// Whether its receiver accepts a checksum of zero (RFC 9653).
    pub accepts_zero: bool,
}

/// Follows the packets of a run: each one is noted in order, also one that is not shown.
pub trait Follow {
    /// Notes a packet, whose checksum was computed or not, and says what is known of it. Refuses only for memory.
    fn note(
        &mut self,
        alloc: Global,
        seen: &Dissection,
        sum: Sum,
        ends: Option<(IpAddr, IpAddr)>,
    ) -> Result<Known, AllocError>;
}

/// Each packet stands alone: nothing is known of it from others, but whether its receiver accepts a checksum of zero.
#[derive(Drop)]
pub struct Alone {
    zero_tags: ZeroTags,
}

impl Alone {
    /// No packet came yet.
    pub fn new(alloc: Global) -> Self {
        Alone {
            zero_tags: ZeroTags::new(alloc),
        }
    }
}

impl Follow for Alone {
    fn note(
        &mut self,
        alloc: Global,
        seen: &Dissection,
        sum: Sum,
        _ends: Option<(IpAddr, IpAddr)>,
    ) -> Result<Known, AllocError> {
        if sum == Sum::Crc32c {
            self.zero_tags.note(alloc, seen)?;
        }
        Ok(Known {
            bases: ABSOLUTE,
            is_repeated: false,
            side: None,
            accepts_zero: self.zero_tags.accepts(&seen.header),
        })
    }
}

/// The bases in this form: JSON has TSNs as they are.
pub fn bases_for(form: Form, bases: Bases) -> Bases
    ensures text { form ≡ Text → result ≡ bases }
    ensures own { form ≡ Json → result.own ≡ 0 }
    ensures other { form ≡ Json → result.other ≡ 0 }
{
    match form {
        Form::Text => bases,
        Form::Json => ABSOLUTE,
    }
}
