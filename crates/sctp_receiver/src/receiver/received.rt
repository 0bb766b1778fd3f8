//! What was read on a stream.

ghost use Rattle.std.specs.Prelude.{◌≡◌};
ghost use Rattle.sctp_data.specs.PayloadTypes.{counted_as};
ghost use Rattle.sctp_stream.specs.Stats.{with_received};

use sctp_data::chunk::chunk_payload_data::PayloadProtocolIdentifier;
use sctp_stream::stream::DataChannelStats;
use std::marker::Model;

/// The counters of a stream on which nothing is sent: what is always 0 takes no memory.
#[derive(Drop)]
pub struct Received {
    stream: u16,
    messages: u64,
    bytes: u64,
}

impl Model for Received {
    ghost use Rattle.sctp_stream.specs.declared.stream.DataChannelStats.{DataChannelStats};

    ghost Value = { DataChannelStats };

    ghost view = { λ r. record {
      stream_identifier = r.stream;
      generation = 0;
      messages_sent = 0;
      bytes_sent = 0;
      messages_received = r.messages;
      bytes_received = r.bytes;
    } };
}

impl Received {
    /// Of a stream on which nothing was read.
    pub(crate) fn new(stream: u16) -> Self
        ensures { result ≡ record {
          stream_identifier = stream;
          generation = 0;
          messages_sent = 0;
          bytes_sent = 0;
          messages_received = 0;
          bytes_received = 0;
        } }
    {
        Received {
            stream,
            messages: 0,
            bytes: 0,
        }
    }

    /// All counters.
    pub(crate) fn stats(&self) -> DataChannelStats
        ensures { result ≡ self.now }
    {
        DataChannelStats {
            stream_identifier: self.stream,
            generation: 0,
            messages_sent: 0,
            bytes_sent: 0,
            messages_received: self.messages,
            bytes_received: self.bytes,
        }
    }

    /// Counts a message of `len` bytes that was read.
    pub(crate) fn count(&mut self, ppi: PayloadProtocolIdentifier, len: usize)
        ensures { self.new ≡ with_received (counted_as ppi len) self.old }
    {
        let mut stats = self.stats();
        stats.received(ppi, len);
        self.messages = stats.messages_received;
        self.bytes = stats.bytes_received;
    }
}
