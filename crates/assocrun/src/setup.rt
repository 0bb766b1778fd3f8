//! What a `new` says of an association.

use crate::command::Refusal;
use crate::words::{Words, nanoseconds, number_of};
use sctp_association::{Config, RtoLimits, Secrets};

// A millisecond: how exact the clock of an association is.
const GRANULARITY: u64 = 1_000_000;

/// A configuration and secrets. The times are in nanoseconds.
#[derive(Clone, Copy)]
pub(crate) struct Setup {
    config: Config,
    secrets: Secrets,
    rto_initial: u64,
    rto_min: u64,
    rto_max: u64,
}

impl Setup {
    /// The defaults, and secrets that are none.
    pub fn new() -> Setup {
        Setup {
            config: Config::default(),
            secrets: Secrets {
                tag: 1,
                first_tsn: 1,
                cookie_key: [0; 32],
            },
            rto_initial: 1_000_000_000,
            rto_min: 200_000_000,
            rto_max: 60_000_000_000,
        }
    }

    /// The configuration.
    pub fn config(&self) -> Config {
        Config {
            rto: RtoLimits::new(self.rto_initial, self.rto_min, self.rto_max, GRANULARITY),
            ..self.config
        }
    }

    /// The secrets.
    pub fn secrets(&self) -> Secrets {
        self.secrets
    }

    /// That of the words `KEY=VALUE` that are left.
    pub fn read(words: &mut Words) -> Result<Setup, Refusal> {
        let mut setup = Setup::new();
        // No line has more words.
        for _ in 0..u32::MAX {
            let Some(word) = words.word() else {
                break;
            };
            let Some((key, value)) = word.split_once('=') else {
                return Err(Refusal::BadField);
            };
            let Some(()) = setup.set(key, value) else {
                return Err(Refusal::BadField);
            };
        }
        Ok(setup)
    }

    // Sets a value; None where there is no such key, or it has no such value.
    fn set(&mut self, key: &str, value: &str) -> Option<()> {
        match key {
            "tag" => self.secrets.tag = number(value)?,
            "tsn" => self.secrets.first_tsn = number(value)?,
            "key" => {
                let mut cookie_key = [0u8; 32];
                hex::decode_to_slice(value, &mut cookie_key).ok()?;
                self.secrets.cookie_key = cookie_key;
            }
            "port" => self.config.source_port = short(value)?,
            "peer_port" => self.config.destination_port = short(value)?,
            "mtu" => self.config.mtu = number(value)? as usize,
            "window" => self.config.window = number(value)? as usize,
            "reach" => self.config.reach = number(value)?,
            "waiting" => self.config.most_waiting = number(value)? as usize,
            "in_flight" => self.config.most_in_flight = number(value)? as usize,
            "max" => self.config.max_message_size = number(value)?,
            _ => return self.set_other(key, value),
        }
        Some(())
    }

    // Sets a number of streams, a count, or whether checksums may be 0.
    fn set_other(&mut self, key: &str, value: &str) -> Option<()> {
        match key {
            "streams" => {
                self.config.outbound_streams = short(value)?;
                self.config.inbound_streams = short(value)?;
            }
            "out_streams" => self.config.outbound_streams = short(value)?,
            "in_streams" => self.config.inbound_streams = short(value)?,
            "retrans" => self.config.max_retrans = number(value)?,
            "init_retrans" => self.config.max_init_retrans = number(value)?,
            "zero_checksum" => {
                self.config.zero_checksum = match value {
                    "0" => false,
                    "1" => true,
                    _ => return None,
                }
            }
            _ => return self.set_time(key, value),
        }
        Some(())
    }

    // Sets a time.
    fn set_time(&mut self, key: &str, value: &str) -> Option<()> {
        let time = nanoseconds(value)?;
        match key {
            "rto_min" => self.rto_min = time,
            "rto_initial" => self.rto_initial = time,
            "rto_max" => self.rto_max = time,
            "heartbeat" => self.config.heartbeat = time,
            "sack_delay" => self.config.sack_delay = time,
            "cookie_life" => self.config.cookie_life = time,
            "shutdown_guard" => self.config.shutdown_guard = time,
            _ => return None,
        }
        Some(())
    }
}

// A number of 32 bits.
fn number(value: &str) -> Option<u32> {
    Some(number_of(value, u32::MAX as u64)? as u32)
}

// A number of 16 bits.
fn short(value: &str) -> Option<u16> {
    Some(number_of(value, u16::MAX as u64)? as u16)
}
