//! A channel is closed: both directions of its stream are reset (RFC 8831 6.7, RFC 6525).

ghost use Rattle.std.specs.Prelude.{◌≡◌, None, Err, IfErr, OnErr, OnOk, true};
ghost use Rattle.sctp_channels.specs.Channels.{asked, channel_on, note_on};
ghost use Rattle.sctp_channels.specs.Refusals.{CloseRefused};
ghost use Rattle.sctp_channels.specs.Rest.{Keeps};
ghost use Rattle.sctp_channels.specs.Sends.{IsAsked};
ghost use Rattle.sctp_channels.specs.Steps.{AsksOwed, after_event, state_of};
ghost use Rattle.sctp_association.specs.declared.event.Event.TheVariants as event;
ghost use Rattle.sctp_channels.specs.declared.channel.News.TheVariants as news;
ghost use Rattle.sctp_channels.specs.declared.channels.Refusal.TheVariants.{NoChannel, OutOfMemory};
ghost use Rattle.sctp_reset.specs.Own.{after_ask};

use crate::channel::{News, Stage};
use crate::channels::{Channels, Refusal};
use crate::sends::ask;
use sctp_association::Association;

impl Channels {
    /// Closes a channel: once what was written is acknowledged, our direction of the stream is reset, and the peer resets the other. `ChannelEvent::Closed`
    /// tells when both are. Refuses with `NoChannel`, for memory, or where the association refuses the reset, and no channel has changed then.
    #[tactic(auto, using(crate::proofs::Refusing::close_refused))]
    pub fn close(&mut self, association: &mut Association, stream: u16) -> Result<(), Refusal>
        ensures ok { OnOk result (self.new.channels.items
            ≡ note_on stream news.Closing self.old.channels.items) }
        // Our direction of the stream is to be reset (RFC 6525 5.1.2).
        ensures asked { OnOk result (association.new.requests
            ≡ after_ask stream association.old.requests) }
        // Beside that, the stage, and room for events nothing changes.
        ensures only { OnOk result (IsAsked stream association.old association.new) }
        ensures rest { Keeps self.old self.new }
        ensures none { channel_on stream self.old.channels.items ≡ None
            → result ≡ Err NoChannel }
        ensures refused { IfErr result (CloseRefused stream self.old.channels.items) }
        ensures err { OnErr result ((self.new ≡ self.old)
            × (association.new ≡ association.old)) }
    {
        if self.find(stream).is_none() {
            return Err(Refusal::NoChannel);
        }
        association.reset_stream(stream)?;
        self.note(stream, News::Closing);
        Ok(())
    }

    // The peer's direction is reset: it closes the channel, and so do we.
    pub(crate) fn peers_reset_came(&mut self, stream: u16)
        ensures same { asked self.new.channels.items ≡ asked self.old.channels.items }
        ensures side { self.new.side ≡ self.old.side }
        ensures after { (a : Association) → state_of self.new a
            ≡ after_event (event.ResetByPeer stream) (state_of self.old a) }
    {
        let is_closing = match self.find(stream) {
            Some(channel) => channel.stage == Stage::Closing,
            None => true,
        };
        if !is_closing {
            self.owed = Some(stream);
        }
        self.note(stream, News::PeersReset);
    }

    // Asks for the reset that is owed. Where the association takes none any more, there is nothing left to reset.
    pub(crate) fn ask_reset(&mut self, association: &mut Association) -> Result<(), Refusal>
        ensures same { asked self.new.channels.items ≡ asked self.old.channels.items }
        ensures side { self.new.side ≡ self.old.side }
        ensures inbound { association.new.inbound ≡ association.old.inbound }
        ensures arrived { self.new.arrived ≡ self.old.arrived }
        ensures ok { OnOk result (AsksOwed self.old.owed (state_of self.old association.old)
            (state_of self.new association.new)) }
        ensures done { OnOk result (self.new.owed ≡ None) }
        ensures err { OnErr result ((self.new ≡ self.old)
            × (association.new ≡ association.old)) }
        ensures memory { IfErr result (λ e. e ≡ OutOfMemory) }
    {
        let Some(stream) = self.owed else {
            return Ok(());
        };
        if !ask(association, stream)? {
            self.note(stream, News::OursReset);
        }
        self.owed = None;
        Ok(())
    }
}
