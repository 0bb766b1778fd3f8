//! What is to be sent beside user data and SACKs.

ghost use Rattle.std.specs.Prelude.{◌≡◌, true, false, None};
ghost use Rattle.sctp_association.specs.Kept.{ticket_in_kind};
ghost use Rattle.sctp_association.specs.Made.{owes_nothing};
ghost use Rattle.sctp_association.specs.Tags.{is_ending};

use bytes::Bytes;
use sctp_handshake::Ticket;

/// A packet of one reply, to whom has this tag.
#[derive(Clone, Copy)]
pub(crate) struct Alone {
    pub(crate) tag: u32,
    pub(crate) kind: AloneKind,
}

/// What such a packet has.
#[derive(Clone, Copy)]
pub(crate) enum AloneKind {
    Init,
    InitAck(Ticket),
    /// An ERROR with cause 3: by how many microseconds the cookie was too old (RFC 9260 3.3.10.3).
    StaleCookie(u32),
    /// A SHUTDOWN-ACK, and an ERROR with cause 10 (RFC 9260 5.2.4 A).
    ShuttingDown,
    ShutdownComplete,
    /// An ABORT with this cause code (RFC 9260 3.3.7).
    Abort(u16),
    /// An ABORT with the cause 2, about an INIT ACK that has no State Cookie (RFC 9260 3.3.10.2).
    NoCookie,
    /// An ABORT about a Host Name Address, with the cause 5 and the parameter where it is kept (RFC 9260 5.1.2, 3.3.10.5).
    HostName,
    /// An ABORT with the cause 9, about the chunk with this TSN (RFC 9260 3.3.10.9).
    NoUserData(u32),
}

impl Alone {
    /// Whether this, by which an association ended, answers a packet that begins with a chunk of a type and comes behind the end: a
    /// SHUTDOWN-COMPLETE answers a SHUTDOWN-ACK (RFC 9260 8.4, 5), an ABORT what is not itself an end, an ERROR or a COOKIE-ACK (8.4, 8).
    pub(crate) fn answers(&self, typ: u8) -> bool
        ensures ends { result ≡ true → is_ending typ ≡ false }
        // None ended by an INIT ACK.
        ensures owes { result ≡ true → ticket_in_kind self.now.kind ≡ None }
    {
        match typ {
            1 | 6 | 9 | 10 | 11 | 14 => false,
            8 => !matches!(self.kind, AloneKind::InitAck(_)),
            _ => matches!(
                self.kind,
                AloneKind::Abort(_)
                    | AloneKind::NoCookie
                    | AloneKind::HostName
                    | AloneKind::NoUserData(_)
            ),
        }
    }
}

/// What the peer sent and this side does not know: an ERROR with this cause tells it (RFC 9260 3.3.10.6, 3.3.10.8).
#[derive(Drop)]
pub(crate) struct Report {
    pub(crate) code: u16,
    pub(crate) raw: Bytes,
}

/// What is due, each at most once: a later one of its kind takes the place of an earlier one, but a report waits until it is sent.
#[derive(Drop)]
pub(crate) struct Due {
    pub(crate) alone: Option<Alone>,
    pub(crate) cookie_echo: bool,
    pub(crate) cookie_ack: bool,
    pub(crate) shutdown: bool,
    pub(crate) shutdown_ack: bool,
    /// The HEARTBEAT whose information is to be sent back (RFC 9260 8.3).
    pub(crate) heartbeat: Option<Bytes>,
    pub(crate) report: Option<Report>,
    /// The parameters of the last INIT that its INIT ACK reports, with padding between them (RFC 9260 3.2.2); or the Host Name Address that
    /// an ABORT reports.
    pub(crate) unknown_params: Option<Bytes>,
    /// The ABORT or SHUTDOWN-COMPLETE by which this side ended the association: it may be lost, and then a packet of the peer comes again.
    pub(crate) farewell: Option<Alone>,
}

impl Due {
    /// Nothing.
    pub(crate) fn new() -> Due
        ensures { result ≡ owes_nothing }
    {
        Due {
            alone: None,
            cookie_echo: false,
            cookie_ack: false,
            shutdown: false,
            shutdown_ack: false,
            heartbeat: None,
            report: None,
            unknown_params: None,
            farewell: None,
        }
    }
}
