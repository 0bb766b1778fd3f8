//! What is set of a sender and of its streams, and whether a stream is drained.

ghost use Rattle.std.specs.Prelude.{◌≡◌, ◌<◌, ◌≤◌, None, Some, true, false, OnOk, OnErr, IfErr, IsOk};
ghost use Rattle.sctp_sender.specs.declared.sender.refusal.SenderRefusal.TheVariants.{StreamUnknown};

use super::Sender;
use crate::sender::refusal::SenderRefusal;
use sctp_stream::outbound_stream::OutboundStream;

impl Sender {
    ghost use Rattle.sctp_sender.specs.Sender.{is_open};
    ghost use Rattle.sctp_sender.specs.Settings.{IsKeptWithin, is_drained, reset_on, reset_refusal, with_fragment_size, with_low_on};

    /// Sets how many bytes a fragment of a later write has at most, on each stream, as where the path MTU changes (RFC 4821). What
    /// was written keeps its fragments. It takes no memory.
    /// Precondition: `size` is 1 to 65,519.
    pub fn set_fragment_size(&mut self, size: u32)
        requires { (0 < size) × (size ≤ 65519) }
        ensures sized { self.new ≡ with_fragment_size size self.old }
        // Of what was reported nothing is kept past what is in flight.
        ensures kept { IsKeptWithin self.old }
    {
        self.streams.set_fragment_size(size);
        self.fragment_size = size;
    }

    /// Sets the amount of a stream, in bytes, down to which a fall is told: its `buffered_amount_low_threshold`. Refuses with
    /// `StreamUnknown`, where the stream is not open. It takes no memory.
    pub fn set_buffered_amount_low_threshold(
        &mut self,
        stream: u16,
        bytes: usize,
    ) -> Result<(), SenderRefusal>
        ensures ok { OnOk result (self.new ≡ with_low_on stream bytes self.old) }
        ensures accepted { IsOk result → is_open stream self.old ≡ true }
        ensures refused { IfErr result (λ e. (e ≡ StreamUnknown)
            × (is_open stream self.old ≡ false)) }
        ensures err { OnErr result (self.new ≡ self.old) }
    {
        let Some(_) = self.streams.find(stream) else {
            return Err(SenderRefusal::StreamUnknown);
        };
        self.streams.set_low(stream, bytes);
        Ok(())
    }

    /// Whether nothing of a stream waits or is in flight: it can be reset then (RFC 6525 5.1.2).
    pub fn is_drained(&self, stream: u16) -> bool
        ensures { result ≡ is_drained stream self.now }
    {
        !self.flight.queue().contains_stream(stream)
    }

    /// Resets a stream (RFC 6525 5.1.2, RFC 8831 6.7): its next ordered message has the number 0. Its mode, its amount and its
    /// counters stay. The refusals, in the order in which they are looked for: `StreamUnknown`, where it is not open; `StreamBusy`,
    /// where something of it waits or is in flight. The sender is as it was then. It takes no memory.
    pub fn reset(&mut self, stream: u16) -> Result<(), SenderRefusal>
        ensures ok { OnOk result (self.new ≡ reset_on stream self.old) }
        ensures accepted { IsOk result → reset_refusal stream self.old ≡ None }
        ensures refused { IfErr result (λ e. reset_refusal stream self.old ≡ Some e) }
        ensures err { OnErr result (self.new ≡ self.old) }
    {
        let Some(_) = self.streams.find(stream) else {
            return Err(SenderRefusal::StreamUnknown);
        };
        if !self.is_drained(stream) {
            return Err(SenderRefusal::StreamBusy);
        }
        self.streams.restart(stream);
        Ok(())
    }

    /// The open streams, in the order in which they were opened; where one was closed, the last one stands in its place.
    pub(crate) fn open_streams(&self) -> &[OutboundStream]
        ensures { result.now ≡ self.now.streams }
    {
        self.streams.all()
    }
}
