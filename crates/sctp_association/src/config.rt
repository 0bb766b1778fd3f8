//! What an association is told by its user.

ghost use Rattle.std.specs.Prelude.{◌≡◌, ◌≤◌, true};
ghost use Rattle.sctp_association.specs.Configs.{is_config};

use sctp_path::RtoLimits;

/// The choices of a user. Times are in nanoseconds.
#[derive(Clone, Copy, Debug, PartialEq, Eq)]
pub struct Config {
    /// The ports of this side and of the peer; 5000 by RFC 8831 and 8841.
    pub source_port: u16,
    pub destination_port: u16,
    /// The most bytes of a datagram: 1,191 are 1,280 less IPv6, UDP, TURN and DTLS.
    pub mtu: usize,
    /// RTO.Initial, RTO.Min and RTO.Max (RFC 9260 16).
    pub rto: RtoLimits,
    /// What may be held of the peer's messages, in bytes, 400 a chunk counted with them.
    pub window: usize,
    /// How far past the cumulative TSN a TSN may lie.
    pub reach: u32,
    /// The most bytes of a message, either way (RFC 8841 6).
    pub max_message_size: u32,
    /// The most streams of this side, and the most of the peer that are taken: at least 1.
    pub outbound_streams: u16,
    pub inbound_streams: u16,
    /// The most bytes that may wait before they are sent first.
    pub most_waiting: usize,
    /// The most chunks in flight, at least 1: what a SACK may cost is bounded by it.
    pub most_in_flight: usize,
    /// How often in a row what is sent may stay unanswered (Association.Max.Retrans).
    pub max_retrans: u32,
    /// How often an INIT or a COOKIE-ECHO is sent again (Max.Init.Retransmits).
    pub max_init_retrans: u32,
    /// How long a path may be idle before a HEARTBEAT goes, beside the RTO (HB.interval).
    pub heartbeat: u64,
    /// How long a SACK may wait for a second packet (SACK.Delay).
    pub sack_delay: u64,
    /// How long a shutdown of this side may last, from its first SHUTDOWN on (T5-shutdown-guard): five RTO.Max by RFC 9260 9.2.
    pub shutdown_guard: u64,
    /// How long a cookie is valid (Valid.Cookie.Life).
    pub cookie_life: u64,
    /// Whether the layer below detects damage, as DTLS does, so that checksums may be 0 (RFC 9653).
    pub zero_checksum: bool,
}

/// What nobody may guess, from the user's generator: drawn anew for each association.
#[derive(Clone, Copy)]
pub struct Secrets {
    /// The verification tag of this side, not 0 (RFC 9260 5.3.1).
    pub tag: u32,
    /// The TSN of the first chunk.
    pub first_tsn: u32,
    /// The key of the cookies' authentication codes (5.1.3).
    pub cookie_key: [u8; 32],
}

// A second.
const SECOND: u64 = 1_000_000_000;

/// Those of WebRTC data channels: RFC 8831 and 9260 16, with the RTO.Min of browsers.
impl Default for Config {
    fn default() -> Config {
        Config {
            source_port: 5000,
            destination_port: 5000,
            mtu: 1191,
            rto: RtoLimits::default(),
            window: 1 << 20,
            reach: 10_000,
            max_message_size: 65_536,
            outbound_streams: 1024,
            inbound_streams: 1024,
            most_waiting: 16 << 20,
            most_in_flight: 4096,
            max_retrans: 10,
            max_init_retrans: 8,
            heartbeat: 30 * SECOND,
            sack_delay: SECOND / 5,
            shutdown_guard: 300 * SECOND,
            cookie_life: 60 * SECOND,
            zero_checksum: false,
        }
    }
}

impl Config {
    /// Whether an association can have these numbers: a packet takes any control chunk, and the window tells at least what an INIT may (RFC
    /// 9260 3.3.2).
    pub(crate) fn is_usable(&self) -> bool
        ensures value { result ≡ is_config self.now }
        ensures mtu { result ≡ true → (512 ≤ self.now.mtu) × (self.now.mtu ≤ 65535) }
    {
        self.mtu >= 512
            && self.mtu <= 65_535
            && self.window >= 1500
            && self.reach >= 1
            && self.most_in_flight >= 1
            && self.outbound_streams >= 1
            && self.inbound_streams >= 1
            && self.source_port != 0
            && self.destination_port != 0
    }
}
