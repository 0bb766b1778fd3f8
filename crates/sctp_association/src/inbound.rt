//! What comes of the peer's messages, and when it is acknowledged (RFC 9260 6.2, 6.5; RFC 3758 3.6).

ghost use Rattle.std.specs.Prelude.{◌≡◌, ◌==◌, ◌<◌, ◌≤◌, ℕ, Ok, IfOk, IsOk, OnErr, OnOk, Some, ◌||◌, length, option_map, is_some, true, false, ◌⊎◌, ◌∷◌, []};
ghost use Rattle.sctp_association.specs.Arrivals.{AsksFor, IsOpening, IsOpeningNamed, IsReset, Received};
ghost use Rattle.sctp_association.specs.Filled.{IfNonePut};
ghost use Rattle.sctp_association.specs.Ordered.{PutsTypes};
ghost use Rattle.sctp_association.specs.Packets.{IsSackOnce, PutsIn, Stands};
ghost use Rattle.sctp_association.specs.Reached.{IsLimited, most_user_data};
ghost use Rattle.sctp_association.specs.StreamSet.{is_in};
ghost use Rattle.sctp_association.specs.declared.inbound.Followed.TheVariants.{Done, Wanting};
ghost use Rattle.sctp_chunks.specs.Wire.{data_chunk, forward_tsn_chunk, sack_chunk};
ghost use Rattle.sctp_data.specs.ForwardTsn.{forward_tsn_of};
ghost use Rattle.sctp_data.specs.PayloadData.{data_of};
ghost use Rattle.sctp_data.specs.SelectiveAck.{Sack};
ghost use Rattle.sctp_path.specs.Timers.{is_due};
ghost use Rattle.sctp_params.specs.declared.param.param_reconfig_response.ReconfigResult.TheVariants.{SuccessPerformed};
ghost use Rattle.sctp_reassembly.specs.reassembly_queue.ReassemblyQueue.{at_start};
ghost use Rattle.sctp_receiver.specs.declared.receiver.refusal.ReceiverRefusal.TheVariants.{MessageTooLarge};
ghost use Rattle.sctp_receiver.specs.Receiver.{arrival_refusal, at_first, is_open, message_on, open_stream};
ghost use Rattle.sctp_util.specs.Serial.{comes_before};

use crate::draft::Draft;
use crate::event::Events;
use crate::fault::Fault;
use crate::stream_set::StreamSet;
use sctp_data::chunk::chunk_forward_tsn::ChunkForwardTsn;
use sctp_data::chunk::chunk_payload_data::ChunkPayloadData;
use sctp_params::ReconfigResult;
use sctp_path::AckDelay;
use sctp_reassembly::Chunks;
use sctp_receiver::advice::{AbortCause, Advice, SkipAdvice, advise, advise_skip};
use sctp_receiver::receiver::Receiver;
use sctp_receiver::receiver::arrival::{Arrival, Closed, Forwarded};
use sctp_receiver::receiver::limits::Limits;
use sctp_receiver::receiver::refusal::ReceiverRefusal;
use sctp_util::util::sna32lt;
use std::alloc::Global;

/// How the receiving half is set up.
#[derive(Clone, Copy)]
pub(crate) struct InboundConfig {
    pub(crate) first_tsn: u32,
    pub(crate) streams: u16,
    pub(crate) max_message_size: u32,
    pub(crate) limits: Limits,
    pub(crate) sack_delay: u64,
}

/// What became of a DATA chunk or a FORWARD-TSN.
#[derive(Clone, Copy, Debug, PartialEq, Eq)]
pub(crate) enum Followed {
    /// It was taken, or is dropped: the peer then sends it again.
    Done,
    /// The association is to end with this cause.
    Abort(AbortCause),
    /// It has no user data: the association is to end with cause 9 (RFC 9260 6.2, 3.3.10.9).
    NoUserData(u32),
    /// Memory was wanting, where its stream was to be opened: that may have begun.
    Wanting,
}

/// The receiving half.
#[derive(Drop)]
pub(crate) struct Inbound {
    pub(crate) receiver: Receiver,
    pub(crate) delay: AckDelay,
    streams: u16,
    // Whether DATA came in this datagram that is to be acknowledged at once; None where no DATA came.
    came: Option<bool>,
    // The streams on which a message was too long: data opens none of them until the peer has reset it.
    discarded: StreamSet,
    // The stream of the last chunk that was dropped since there is no such stream: an ERROR is due.
    pub(crate) unknown_stream: Option<u16>,
    // Calls of which none was refused led to the receiver, and it has limits: so what it holds is bounded.
    ghost limited: { ∥ IsLimited streams receiver ∥₁ },
}

impl Inbound {
    ghost use Rattle.sctp_association.specs.AcksDue.{AcksData, acks_by, acks_in, ended, entered_on, is_at_once, no_acks, with_due};
    ghost use Rattle.sctp_association.specs.Brought.{AddsOnly, IsLargeOf, IsLongOf, IsReadOf, NotesOnly};
    ghost use Rattle.sctp_association.specs.Coming.{HasComeOrIsDropped};
    ghost use Rattle.sctp_association.specs.Ends.{EndsData, EndsSkip};
    ghost use Rattle.sctp_association.specs.Entering.{Handles, HandlesOpen, HandlesRefused};
    ghost use Rattle.sctp_association.specs.Events.{BringsNone, brought_at};
    ghost use Rattle.sctp_association.specs.Partly.{OpensIn};
    ghost use Rattle.sctp_association.specs.Reads.{IsReadOff};
    ghost use Rattle.sctp_association.specs.Reconfigs.{ResetsOne};
    ghost use Rattle.sctp_association.specs.Served.{AreServed, IsServed, is_to_open, is_usable};
    ghost use Rattle.sctp_association.specs.Telling.{HasPlaces, KeepsEvents, Stays, TellsIn};
    ghost use Rattle.sctp_association.specs.declared.event.Events.{Events};

    /// Nothing came. It takes no memory.
    #[tactic(auto, using(crate::proofs::Reaching::begun))]
    pub(crate) fn new(alloc: Global, config: &InboundConfig) -> Inbound
        ensures limits { (result.receiver.limits ≡ Some config.now.limits)
            × (result.streams ≡ config.now.streams) }
        ensures receiver { result.receiver ≡ at_first
            config.now.first_tsn config.now.max_message_size (Some config.now.limits) }
        ensures acks { acks_in result ≡ no_acks config.now.sack_delay }
    {
        let _window = config.limits.window;
        Inbound {
            receiver: Receiver::new(
                alloc,
                config.first_tsn,
                config.max_message_size,
                Some(config.limits),
            ),
            delay: AckDelay::new(config.sack_delay),
            streams: config.streams,
            came: None,
            discarded: StreamSet::new(alloc),
            unknown_stream: None,
        }
    }

    /// Takes a DATA chunk. What repeats, fills a gap or leaves one is acknowledged at once (RFC 9260 6.2, 6.7). Refuses only for memory, and
    /// nothing has changed then.
    pub(crate) fn take_data(
        &mut self,
        chunk: &ChunkPayloadData,
        events: &mut Events,
        now: u64,
    ) -> Result<Followed, Fault>
        requires short { length chunk.now.user_data ≤ most_user_data }
        ensures tells { TellsIn (Some self.old) events.old (Some self.new) events.new }
        // Of events it adds only that a message of its stream can be read, or is too long.
        ensures notes { NotesOnly (IsReadOf chunk.now self.new.receiver)
            (IsLongOf chunk.now self.old) events.old events.new }
        // Whatever it answers, the receiver is called for this chunk alone.
        ensures received { Received (AsksFor (data_chunk (data_of chunk.now)))
            self.old.receiver self.new.receiver }
        ensures limits { (self.new.receiver.limits ≡ self.old.receiver.limits)
            × (self.new.streams ≡ self.old.streams) }
        // Where memory is wanting something may have changed only if the stream of the chunk was to be opened.
        ensures wanting { result ≡ Ok Wanting
            → is_to_open chunk.now.stream_identifier self.old ≡ true }
        // Its TSN has come, or the receiver refuses it still.
        ensures takes { result ≡ Ok Done → HasComeOrIsDropped chunk.now (Some self.new.receiver) }
        // Where the peer may use its stream its user data entered, or its message is too long, or it is dropped.
        ensures handles { result ≡ Ok Done → Handles chunk.now self.old self.new }
        // It is noted for the SACK of this datagram; or it is refused, and a SACK is due now.
        ensures acks { result ≡ Ok Done → AcksData chunk.now now self.old self.new }
        // Where memory was wanting its stream may be open by that, and nothing else changed.
        ensures cut { result ≡ Ok Wanting → OpensIn (IsOpening chunk.now.stream_identifier)
            self.old events.old self.new events.new }
        // Where its message is too long that is told.
        ensures told { HasPlaces (Some self.old) events.old → result ≡ Ok Done
            → arrival_refusal chunk.now (entered_on chunk.now self.old) ≡ Some MessageTooLarge
            → is_in chunk.now.stream_identifier events.new.too_long ≡ true }
        // It ends the association only without user data, or where it is refused for good.
        ensures ends { IfOk result (λ f. EndsData chunk.now f self.new.receiver) }
        ensures err { OnErr result ((self.new ≡ self.old) × (events.new ≡ events.old)) }
    {
        if chunk.user_data.is_empty() {
            return Ok(Followed::NoUserData(chunk.tsn));
        }
        if !self.is_to_open(chunk.stream_identifier) {
            return self.take_on(chunk, events, now);
        }
        match self.open_and_take(chunk, events, now) {
            Ok(followed) => Ok(followed),
            Err(_) => Ok(Followed::Wanting),
        }
    }

    // Opens the stream of a DATA chunk, and takes the chunk.
    #[inline(never)]
    fn open_and_take(
        &mut self,
        chunk: &ChunkPayloadData,
        events: &mut Events,
        now: u64,
    ) -> Result<Followed, Fault>
        requires short { length chunk.now.user_data ≤ most_user_data }
        ensures tells { TellsIn (Some self.old) events.old (Some self.new) events.new }
        ensures notes { is_to_open chunk.now.stream_identifier self.old ≡ true
            → NotesOnly (IsReadOf chunk.now self.new.receiver)
            (IsLongOf chunk.now self.old) events.old events.new }
        ensures received { Received (AsksFor (data_chunk (data_of chunk.now)))
            self.old.receiver self.new.receiver }
        ensures limits { (self.new.receiver.limits ≡ self.old.receiver.limits)
            × (self.new.streams ≡ self.old.streams) }
        ensures takes { result ≡ Ok Done → HasComeOrIsDropped chunk.now (Some self.new.receiver) }
        ensures handles { is_to_open chunk.now.stream_identifier self.old ≡ true
            → result ≡ Ok Done → Handles chunk.now self.old self.new }
        ensures acks { is_to_open chunk.now.stream_identifier self.old ≡ true
            → result ≡ Ok Done → AcksData chunk.now now self.old self.new }
        ensures cut { OnErr result (OpensIn (IsOpening chunk.now.stream_identifier)
            self.old events.old self.new events.new) }
        ensures whole { result ≡ Ok Wanting → ⊥ }
        ensures told { is_to_open chunk.now.stream_identifier self.old ≡ true
            → HasPlaces (Some self.old) events.old → result ≡ Ok Done
            → arrival_refusal chunk.now (open_stream chunk.now.stream_identifier self.old.receiver)
            ≡ Some MessageTooLarge
            → is_in chunk.now.stream_identifier events.new.too_long ≡ true }
        ensures ends { IfOk result (λ f. EndsData chunk.now f self.new.receiver) }
    {
        self.open_agreed(chunk.stream_identifier, events)?;
        self.take_on(chunk, events, now)
    }

    // Takes a DATA chunk, and opens no stream for it.
    #[tactic(auto, using(crate::proofs::Reaching::data_led, crate::proofs::Reaching::taken_limits))]
    fn take_on(
        &mut self,
        chunk: &ChunkPayloadData,
        events: &mut Events,
        now: u64,
    ) -> Result<Followed, Fault>
        requires short { length chunk.now.user_data ≤ most_user_data }
        ensures tells { TellsIn (Some self.old) events.old (Some self.new) events.new }
        ensures notes { NotesOnly (IsReadOf chunk.now self.new.receiver)
            (IsLargeOf chunk.now self.old.receiver) events.old events.new }
        ensures received { Received (AsksFor (data_chunk (data_of chunk.now)))
            self.old.receiver self.new.receiver }
        ensures limits { (self.new.receiver.limits ≡ self.old.receiver.limits)
            × (self.new.streams ≡ self.old.streams) }
        ensures whole { result ≡ Ok Wanting → ⊥ }
        ensures takes { result ≡ Ok Done → HasComeOrIsDropped chunk.now (Some self.new.receiver) }
        ensures handles { result ≡ Ok Done → HandlesOpen chunk.now self.old self.new }
        ensures acks { result ≡ Ok Done → acks_in self.new
            ≡ acks_by (arrival_refusal chunk.now self.old.receiver) chunk.now now
            self.old.receiver self.new.receiver (acks_in self.old) }
        ensures told { result ≡ Ok Done
            → arrival_refusal chunk.now self.old.receiver ≡ Some MessageTooLarge
            → chunk.now.stream_identifier < length events.old.too_long
            → is_in chunk.now.stream_identifier events.new.too_long ≡ true }
        ensures ends { IfOk result (λ f. EndsData chunk.now f self.new.receiver) }
        ensures err { OnErr result ((self.new ≡ self.old) × (events.new ≡ events.old)) }
    {
        let stream = chunk.stream_identifier;
        let had_gap = self.receiver.has_gaps();
        let _tsn = chunk.tsn;
        match self.receiver.data(chunk) {
            Ok(Arrival::New { complete }) => {
                let at_once = chunk.immediate_sack || had_gap || self.receiver.has_gaps();
                self.note_data(at_once);
                if complete
                    && !events.readable.contains(stream)
                    && self.receiver.is_readable(stream)
                {
                    events.readable.insert(stream);
                }
                Ok(Followed::Done)
            }
            Ok(Arrival::Repeat) => {
                self.note_data(true);
                Ok(Followed::Done)
            }
            Err(refusal) => match refusal {
                ReceiverRefusal::OutOfMemory => Err(Fault::OutOfMemory),
                _ => self.follow(refusal, chunk, events, now),
            },
        }
    }

    // DATA came in this datagram.
    fn note_data(&mut self, at_once: bool)
        ensures { self.new ≡ record self.old {
          came = Some (at_once || is_at_once self.old.came);
        } }
    {
        self.came = Some(at_once || self.came == Some(true));
    }

    /// The datagram has ended: every second one with DATA is acknowledged (RFC 9260 6.2).
    pub(crate) fn datagram_ended(&mut self, now: u64)
        ensures receiver { self.new.receiver ≡ self.old.receiver }
        ensures limits { (self.new.receiver.limits ≡ self.old.receiver.limits)
            × (self.new.streams ≡ self.old.streams) }
        ensures usable { (n : ℕ) → is_usable n self.new ≡ is_usable n self.old }
        ensures acks { acks_in self.new ≡ ended now (acks_in self.old) }
    {
        if let Some(at_once) = self.came {
            self.delay.packet_came(now, at_once);
            self.came = None;
        }
    }

    // Whether a stream is to be opened: it is one of those that were agreed, not open, and no message of the peer on it was too long.
    fn is_to_open(&self, stream: u16) -> bool
        ensures { result ≡ is_to_open stream self.now }
    {
        self.receiver.stats(stream).is_none()
            && stream < self.streams
            && !self.discarded.contains(stream)
    }

    // Opens a stream, if it is one of those that were agreed, and not open, and the peer's messages on it were not too long.
    #[tactic(auto, using(crate::proofs::Reaching::opened))]
    fn open(&mut self, stream: u16, events: &mut Events) -> Result<(), Fault>
        ensures tells { TellsIn (Some self.old) events.old (Some self.new) events.new }
        ensures notes { NotesOnly (λ s. ⊥) (λ s. ⊥) events.old events.new }
        ensures received { Received (IsOpening stream) self.old.receiver self.new.receiver }
        ensures limits { (self.new.receiver.limits ≡ self.old.receiver.limits)
            × (self.new.streams ≡ self.old.streams) }
        ensures shut { is_in stream self.old.discarded ≡ true → self.new ≡ self.old }
        ensures same { (n : ℕ) → is_in n self.new.discarded ≡ is_in n self.old.discarded }
        ensures served { IsOk result → IsServed stream self.new }
        ensures still { (n : ℕ) → is_open n self.old.receiver ≡ true
            → is_open n self.new.receiver ≡ true }
        ensures place { self.new.receiver.cumulative_tsn ≡ self.old.receiver.cumulative_tsn }
        ensures acks { acks_in self.new ≡ acks_in self.old }
        ensures unknown { self.new.unknown_stream ≡ self.old.unknown_stream }
    {
        if self.receiver.stats(stream).is_some() {
            return Ok(());
        }
        self.open_agreed(stream, events)
    }

    // The same of a stream that is not open: seldom, and so apart.
    #[tactic(auto, using(crate::proofs::Reaching::opened))]
    #[inline(never)]
    fn open_agreed(&mut self, stream: u16, events: &mut Events) -> Result<(), Fault>
        ensures tells { TellsIn (Some self.old) events.old (Some self.new) events.new }
        ensures notes { NotesOnly (λ s. ⊥) (λ s. ⊥) events.old events.new }
        ensures received { Received (IsOpening stream) self.old.receiver self.new.receiver }
        ensures limits { (self.new.receiver.limits ≡ self.old.receiver.limits)
            × (self.new.streams ≡ self.old.streams) }
        ensures shut { is_in stream self.old.discarded ≡ true → self.new ≡ self.old }
        ensures same { (n : ℕ) → is_in n self.new.discarded ≡ is_in n self.old.discarded }
        ensures served { IsOk result → IsServed stream self.new }
        ensures opens { IsOk result → is_usable stream self.old ≡ true
            → self.new.receiver ≡ open_stream stream self.old.receiver }
        ensures still { (n : ℕ) → is_open n self.old.receiver ≡ true
            → is_open n self.new.receiver ≡ true }
        ensures place { self.new.receiver.cumulative_tsn ≡ self.old.receiver.cumulative_tsn }
        ensures acks { acks_in self.new ≡ acks_in self.old }
        ensures unknown { self.new.unknown_stream ≡ self.old.unknown_stream }
    {
        if stream >= self.streams || self.discarded.contains(stream) {
            return Ok(());
        }
        events.reserve_inbound(stream)?;
        self.discarded.reserve(stream)?;
        self.receiver.open(stream)?;
        Ok(())
    }

    // Does what is advised at a refusal. The SACK of what is dropped says that there is no room for it (RFC 9260 6.2).
    #[tactic(auto, using(crate::proofs::Reaching::dropped, crate::proofs::Reaching::dropped_limits, crate::proofs::Reaching::closed, crate::proofs::Arriving::received_same, crate::proofs::Arriving::received_discarded, crate::proofs::Arriving::received_gone))]
    #[inline(never)]
    fn follow(
        &mut self,
        refusal: ReceiverRefusal,
        chunk: &ChunkPayloadData,
        events: &mut Events,
        now: u64,
    ) -> Result<Followed, Fault>
        ensures tells { TellsIn (Some self.old) events.old (Some self.new) events.new }
        ensures notes { arrival_refusal chunk.now self.old.receiver ≡ Some refusal
            → NotesOnly (λ s. ⊥) (IsLargeOf chunk.now self.old.receiver) events.old events.new }
        ensures received { Received (AsksFor (data_chunk (data_of chunk.now)))
            self.old.receiver self.new.receiver }
        // Where a message is too long its stream opens no more, and that is told.
        ensures shut { refusal ≡ MessageTooLarge → OnOk result
            (chunk.now.stream_identifier < length self.old.discarded
            → is_in chunk.now.stream_identifier self.new.discarded ≡ true) }
        ensures told { refusal ≡ MessageTooLarge → OnOk result
            (chunk.now.stream_identifier < length events.old.too_long
            → is_in chunk.now.stream_identifier events.new.too_long ≡ true) }
        ensures limits { (self.new.receiver.limits ≡ self.old.receiver.limits)
            × (self.new.streams ≡ self.old.streams) }
        ensures kept { (n : ℕ) → is_in n self.old.discarded ≡ true
            → is_in n self.new.discarded ≡ true }
        ensures whole { result ≡ Ok Wanting → ⊥ }
        ensures takes { arrival_refusal chunk.now self.old.receiver ≡ Some refusal
            → result ≡ Ok Done → HasComeOrIsDropped chunk.now (Some self.new.receiver) }
        ensures handles { arrival_refusal chunk.now self.old.receiver ≡ Some refusal
            → result ≡ Ok Done → HandlesRefused refusal chunk.now self.old self.new }
        ensures acks { result ≡ Ok Done → acks_in self.new ≡ with_due now (acks_in self.old) }
        ensures ends { arrival_refusal chunk.now self.old.receiver ≡ Some refusal
            → IfOk result (λ f. EndsData chunk.now f self.new.receiver) }
        ensures err { OnErr result ((self.new ≡ self.old) × (events.new ≡ events.old)) }
    {
        let stream = chunk.stream_identifier;
        match advise(refusal, chunk, &self.receiver) {
            Advice::Drop => {}
            Advice::OpenOrDiscard => {
                self.receiver.discard(chunk.tsn)?;
                if !self.discarded.contains(stream) {
                    self.unknown_stream = Some(stream);
                }
            }
            Advice::CloseAndDiscard => {
                self.receiver.discard(chunk.tsn)?;
                self.receiver.close(stream);
                self.discarded.insert(stream);
                events.readable.remove(stream);
                events.too_long.insert(stream);
            }
            Advice::Abort(cause) => return Ok(Followed::Abort(cause)),
        }
        self.delay.packet_came(now, true);
        Ok(Followed::Done)
    }

    // Opens the streams that a FORWARD-TSN names, where it is ahead: of their messages those may be the first that are skipped (RFC 3758 3.6).
    fn open_named(&mut self, skip: &ChunkForwardTsn, events: &mut Events) -> Result<(), Fault>
        ensures tells { TellsIn (Some self.old) events.old (Some self.new) events.new }
        ensures notes { NotesOnly (λ s. ⊥) (λ s. ⊥) events.old events.new }
        ensures received { Received (IsOpeningNamed (forward_tsn_of skip.now))
            self.old.receiver self.new.receiver }
        ensures limits { (self.new.receiver.limits ≡ self.old.receiver.limits)
            × (self.new.streams ≡ self.old.streams) }
        ensures place { self.new.receiver.cumulative_tsn ≡ self.old.receiver.cumulative_tsn }
        ensures acks { acks_in self.new ≡ acks_in self.old }
        ensures unknown { self.new.unknown_stream ≡ self.old.unknown_stream }
        ensures same { (n : ℕ) → is_in n self.new.discarded ≡ is_in n self.old.discarded }
        ensures served { IsOk result
            → comes_before self.old.receiver.cumulative_tsn skip.now.new_cumulative_tsn ≡ true
            → AreServed (forward_tsn_of skip.now) self.new }
    {
        if !sna32lt(self.receiver.cumulative_tsn(), skip.new_cumulative_tsn) {
            return Ok(());
        }
        for named in &skip.streams {
            self.open(named.identifier, events)?;
        }
        Ok(())
    }

    /// Takes a FORWARD-TSN, which is acknowledged at once (RFC 3758 3.6). Streams that it names open by that. Names of others than were agreed,
    /// and of those on which a message was too long, are dropped. One that names too far ahead comes again, while something can be read.
    #[tactic(auto, using(crate::proofs::Reaching::skip_led, crate::proofs::Reaching::skipped_limits, crate::proofs::Arriving::received_skip))]
    pub(crate) fn take_skip(
        &mut self,
        skip: &ChunkForwardTsn,
        events: &mut Events,
        now: u64,
    ) -> Result<Followed, Fault>
        ensures tells { TellsIn (Some self.old) events.old (Some self.new) events.new }
        // Of events it adds only that a message can be read.
        ensures notes { NotesOnly (λ s. is_some (message_on s self.new.receiver) ≡ true) (λ s. ⊥)
            events.old events.new }
        // Whatever it answers, the receiver is called for this chunk alone.
        ensures received { Received (AsksFor (forward_tsn_chunk (forward_tsn_of skip.now)))
            self.old.receiver self.new.receiver }
        // No stream that it names waits for a message that is skipped.
        ensures named { OnOk result
            (comes_before self.old.receiver.cumulative_tsn skip.now.new_cumulative_tsn ≡ true
            → AreServed (forward_tsn_of skip.now) self.new) }
        ensures limits { (self.new.receiver.limits ≡ self.old.receiver.limits)
            × (self.new.streams ≡ self.old.streams) }
        ensures same { (n : ℕ) → is_in n self.new.discarded ≡ is_in n self.old.discarded }
        ensures whole { result ≡ Ok Wanting → ⊥ }
        // Where memory was wanting streams that it names may be open by that, and nothing else changed.
        ensures cut { OnErr result (OpensIn (IsOpeningNamed (forward_tsn_of skip.now))
            self.old events.old self.new events.new) }
        // A SACK is due now (RFC 3758 3.6).
        ensures acks { result ≡ Ok Done → acks_in self.new ≡ with_due now (acks_in self.old) }
        // It ends the association only where it is refused for good.
        ensures ends { IfOk result
            (λ f. EndsSkip (forward_tsn_of skip.now) f self.new.receiver) }
    {
        let _tsn = skip.new_cumulative_tsn;
        self.open_named(skip, events)?;
        match self.receiver.forward_tsn(skip, Closed::PassOver) {
            Ok(Forwarded::Skipped) => self.note_readable(events),
            Ok(Forwarded::Stale) => {}
            Err(ReceiverRefusal::OutOfMemory) => return Err(Fault::OutOfMemory),
            Err(refusal) => {
                if let SkipAdvice::Abort(cause) = advise_skip(refusal, &self.receiver) {
                    return Ok(Followed::Abort(cause));
                }
            }
        }
        self.delay.packet_came(now, true);
        Ok(Followed::Done)
    }

    // Notes each stream of which a message can be read: those behind what was skipped may be.
    fn note_readable(&self, events: &mut Events)
        ensures noted { (s : ℕ) → is_some (message_on s self.now.receiver) ≡ true
            → s < length events.old.readable → is_in s events.new.readable ≡ true }
        ensures kept { KeepsEvents events.old events.new }
        ensures room { length events.new.readable ≡ length events.old.readable }
        ensures readable { Stays events.old.readable events.new.readable }
        ensures only { AddsOnly (λ s. is_some (message_on s self.now.receiver) ≡ true)
            events.old.readable events.new.readable }
        ensures rest { events.new ≡ record events.old { readable = events.new.readable } }
    {
        for stream in 0..self.streams {
            self.note_if_readable(stream, events);
        }
    }

    // Notes a stream, if a message of it can be read.
    fn note_if_readable(&self, stream: u16, events: &mut Events)
        ensures noted { is_some (message_on stream self.now.receiver) ≡ true
            → stream < length events.old.readable → is_in stream events.new.readable ≡ true }
        ensures kept { KeepsEvents events.old events.new }
        ensures rest { events.new ≡ record events.old { readable = events.new.readable } }
        ensures room { length events.new.readable ≡ length events.old.readable }
        ensures readable { Stays events.old.readable events.new.readable }
        ensures only { AddsOnly (λ s. is_some (message_on s self.now.receiver) ≡ true)
            events.old.readable events.new.readable }
    {
        if self.receiver.is_readable(stream) {
            events.readable.insert(stream);
        }
    }

    // The same, unless a message of it could be read before: that was told, or waits to be.
    fn note_unless(&self, could_read: bool, stream: u16, events: &mut Events)
        ensures noted { could_read ≡ false → is_some (message_on stream self.now.receiver) ≡ true
            → stream < length events.old.readable → is_in stream events.new.readable ≡ true }
        ensures kept { KeepsEvents events.old events.new }
        ensures rest { events.new ≡ record events.old { readable = events.new.readable } }
        ensures room { length events.new.readable ≡ length events.old.readable }
        ensures readable { Stays events.old.readable events.new.readable }
    {
        if !could_read {
            self.note_if_readable(stream, events);
        }
    }

    /// Reads the next message of a stream, if one is there: never refused. Where the window was used up, the peer is told that it is not.
    #[tactic(auto, using(crate::proofs::Reaching::was_read, crate::proofs::Unopened::nothing))]
    pub(crate) fn read(&mut self, stream: u16, now: u64) -> Result<Option<Chunks>, Fault>
        ensures tells { (e : Events) → TellsIn (Some self.old) e (Some self.new) e }
        ensures limits { (self.new.receiver.limits ≡ self.old.receiver.limits)
            × (self.new.streams ≡ self.old.streams) }
        ensures message { IfOk result (λ message. message
            ≡ option_map at_start (message_on stream self.old.receiver)) }
        ensures taken { IsReadOff now stream self.old self.new }
        ensures accepted { IsOk result }
    {
        let was_full = self.receiver.window() == 0;
        let Ok(message) = self.receiver.read(stream) else {
            // It is not open.
            return Ok(None);
        };
        if was_full && self.receiver.window() != 0 {
            self.delay.packet_came(now, true);
        }
        Ok(message)
    }

    /// Resets a stream, as the peer asked (RFC 6525 5.2.2): it may open again. While a TSN up to its last one is missing that is in progress:
    /// a chunk of the old use may still come, also on a stream that is not open. It is told of a stream that the request names, or on
    /// which something came.
    #[tactic(auto, using(crate::proofs::Reaching::was_reset, crate::proofs::Arriving::received_same, crate::proofs::Arriving::received_reset))]
    pub(crate) fn reset(
        &mut self,
        stream: u16,
        last_tsn: u32,
        is_named: bool,
        events: &mut Events,
    ) -> Result<ReconfigResult, Fault>
        ensures tells { TellsIn (Some self.old) events.old (Some self.new) events.new }
        ensures events { events.new ≡ brought_at 130 events.old events.new }
        ensures received { Received (IsReset stream last_tsn)
            self.old.receiver self.new.receiver }
        ensures limits { (self.new.receiver.limits ≡ self.old.receiver.limits)
            × (self.new.streams ≡ self.old.streams) }
        ensures performed { result ≡ Ok SuccessPerformed → is_in stream self.new.discarded ≡ false }
        // No chunk of the old use is under way.
        ensures none_left { result ≡ Ok SuccessPerformed
            → comes_before self.old.receiver.cumulative_tsn last_tsn ≡ false }
        ensures others { (n : ℕ) → (n == stream) ≡ false
            → is_in n self.new.discarded ≡ is_in n self.old.discarded }
        ensures acks { acks_in self.new ≡ acks_in self.old }
        // Where memory was wanting there may be more room for its event, and nothing else changed.
        ensures cut { OnErr result ((self.new ≡ self.old)
            × (KeepsEvents events.old events.new × BringsNone events.old events.new)) }
        // It is performed, or in progress, or the number is wrong, and all that follows.
        ensures resets { IfOk result (λ r. ResetsOne stream last_tsn is_named r
            self.old events.old self.new events.new) }
    {
        if stream >= self.streams {
            return Ok(ReconfigResult::ErrorWrongSsn);
        }
        if sna32lt(self.receiver.cumulative_tsn(), last_tsn) {
            return Ok(ReconfigResult::InProgress);
        }
        if is_named {
            events.reset_by_peer.reserve(stream)?;
        }
        let could_read = self.receiver.is_readable(stream);
        let is_told = match self.receiver.reset(stream, last_tsn) {
            Ok(()) => true,
            Err(ReceiverRefusal::StreamUnknown) => is_named || self.discarded.contains(stream),
            Err(ReceiverRefusal::ResetInProgress) => return Ok(ReconfigResult::InProgress),
            Err(e) => return Err(Fault::from(e)),
        };
        self.discarded.remove(stream);
        if is_told {
            events.reset_by_peer.insert(stream);
        }
        // A message of the old use that waited for another one waits no more.
        self.note_unless(could_read, stream, events);
        Ok(ReconfigResult::SuccessPerformed)
    }

    /// Puts the SACK that is due, or one that waits where DATA goes with it.
    #[tactic(auto, using(crate::proofs::Ordered::order_one, crate::proofs::Ordered::order_none, crate::proofs::Reaching::reported))]
    pub(crate) fn put_sack(
        &mut self,
        packet: &mut Draft,
        has_data: bool,
        now: u64,
    ) -> Result<(), Fault>
        ensures streams { self.new.receiver.streams ≡ self.old.receiver.streams }
        ensures made { PutsIn (IsSackOnce (is_some self.old.delay.due)
            (is_some self.new.delay.due)) self.old.receiver self.new.receiver
            packet.old.bytes packet.new.bytes }
        ensures waits { is_some self.old.delay.due ≡ false
            → is_some self.new.delay.due ≡ false }
        ensures unknown { self.new.unknown_stream ≡ self.old.unknown_stream }
        ensures grows { length packet.old.bytes ≤ length packet.new.bytes }
        // One that waits does so on, or is put.
        ensures leaves { is_some self.old.delay.due ≡ true → (is_some self.new.delay.due ≡ true)
            ⊎ ((s : Sack) × (s.cumulative_tsn_ack ≡ self.old.receiver.cumulative_tsn)
            × Stands packet.old.bytes packet.new.bytes (sack_chunk s)) }
        // Where nothing was put, none is due.
        ensures idle { OnOk result (IfNonePut packet.old.bytes packet.new.bytes
            (is_due now self.new.delay.due ≡ false)) }
        ensures limits { (self.new.receiver.limits ≡ self.old.receiver.limits)
            × (self.new.streams ≡ self.old.streams) }
        ensures usable { (n : ℕ) → is_usable n self.new ≡ is_usable n self.old }
        ensures cumulative { self.new.receiver.cumulative_tsn ≡ self.old.receiver.cumulative_tsn }
        ensures limit { packet.new.limit ≡ packet.old.limit }
        ensures order { PutsTypes (3 ∷ []) packet.old.bytes packet.new.bytes }
    {
        let is_waiting = has_data && self.delay.at().is_some();
        if !is_waiting && !self.delay.is_due(now) {
            return Ok(());
        }
        let sack = self.receiver.make_sack(packet.room())?;
        if !packet.put(&sack) {
            return Ok(());
        }
        self.receiver.sack_sent();
        self.delay.sent();
        Ok(())
    }
}
