//! The echo: a host that writes back each message that it reads.

use bytes::Bytes;
use sctp_association::Association;
use sctp_channels::{ChannelEvent, Channels, Refusal};
use std::alloc::Global;

/// More events, and more messages of a channel, than wait at once.
const MOST: u32 = 1000;

/// A host: its association, and the channels of that.
#[derive(Drop)]
pub(crate) struct Host {
    pub(crate) association: Association,
    pub(crate) channels: Channels,
}

impl Host {
    /// Follows what happened: each message that came goes back on its channel.
    pub(crate) fn echo_all(&mut self, alloc: Global, now: u64) -> Result<(), Refusal> {
        for _ in 0..MOST {
            match self.channels.poll(&mut self.association, now)? {
                Some(ChannelEvent::Readable(stream)) => self.echo(alloc, stream, now)?,
                Some(_) => {}
                None => break,
            }
        }
        Ok(())
    }

    // Writes back the messages of a channel, of at most 64 bytes each.
    fn echo(&mut self, alloc: Global, stream: u16, now: u64) -> Result<(), Refusal> {
        for _ in 0..MOST {
            let Some(message) = self.channels.read(&mut self.association, stream, now)? else {
                break;
            };
            let mut text = [0u8; 64];
            let length = message.read(&mut text).unwrap_or(0);
            let is_text = message.is_text();
            drop(message);
            let bytes = Bytes::copy_from_slice(alloc, text.get(..length).unwrap_or(&[]))?;
            self.channels
                .write(&mut self.association, stream, is_text, &bytes)?;
        }
        Ok(())
    }
}
