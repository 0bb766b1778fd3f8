//! A peer resets a stream that it sends on (RFC 6525 5.2.2).

ghost use Rattle.std.specs.Prelude.{◌≡◌, true, None, OnOk, OnErr, IfErr, IsOk};
ghost use Rattle.sctp_receiver.specs.declared.receiver.refusal.ReceiverRefusal.TheVariants.{OutOfMemory};

use crate::receiver::Receiver;
use crate::receiver::refusal::ReceiverRefusal;
use sctp_util::util::sna32lt;

impl Receiver {
    ghost use Rattle.sctp_receiver.specs.Receiver.{IsRefusedFor};
    ghost use Rattle.sctp_receiver.specs.Resets.{reset_stream, reset_refusal, reset_takes_memory};

    /// Resets a stream that the peer sends on; `last_tsn` is the Sender's Last Assigned TSN of its request (RFC 6525 4.1, 5.2.2). The stream
    /// sequence number 0 is expected next. Complete ordered messages up to `last_tsn` stay to be read, and incomplete ones lose what lies
    /// up to it. It refuses with `StreamUnknown`, else `ResetInProgress`, else `OutOfMemory`, and changes nothing then.
    pub fn reset(&mut self, stream: u16, last_tsn: u32) -> Result<(), ReceiverRefusal>
        ensures ok { OnOk result (self.new ≡ reset_stream stream last_tsn self.old) }
        ensures accepted { IsOk result → reset_refusal stream last_tsn self.old ≡ None }
        ensures refused { IfErr result
            (λ e. IsRefusedFor (reset_refusal stream last_tsn self.old) e) }
        ensures wants { IfErr result (λ e. e ≡ OutOfMemory
            → reset_takes_memory stream last_tsn self.old ≡ true) }
        ensures err { OnErr result (self.new ≡ self.old) }
    {
        let is_open = self.streams.find(stream).is_some();
        if is_open && sna32lt(self.filter.cumulative_tsn(), last_tsn) {
            return Err(ReceiverRefusal::ResetInProgress);
        }
        self.streams.reset(stream, last_tsn)
    }
}
