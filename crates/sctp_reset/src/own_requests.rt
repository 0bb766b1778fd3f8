//! The requests of this side to reset its outgoing streams (RFC 6525 5.1.1, 5.1.2, 5.2.7).

ghost use Rattle.std.specs.Prelude.{◌≡◌, ◌<◌, ℕ, Bool, false, OnOk, OnErr, IfOk, IfSome, IsOkUnless, length};
ghost use Rattle.std.specs.List.{list_any};
ghost use Rattle.std.specs.Option.{is_some, option_copied, option_map};
ghost use Rattle.sctp_reset.specs.Own.{Tells, is_stream, picked, unpicked};
ghost use Rattle.sctp_util.specs.declared.error.Error.TheVariants.{ErrOutOfMemory};

use sctp_params::ReconfigResult;
use sctp_util::error::Result;
use std::alloc::Global;
use std::marker::Model;

/// A request to reset outgoing streams (RFC 6525 4.1): what is written into an Outgoing SSN Reset Request, and when.
#[derive(Drop)]
pub struct ResetRequest {
    /// Its number, which responses name.
    pub number: u32,
    /// The Sender's Last Assigned TSN, as of its beginning.
    pub last_tsn: u32,
    /// The streams, at least one.
    pub streams: Vec<u16>,
    /// When it is to be sent, for the first time or again.
    pub at: u64,
    /// How many sendings had no response, since the last one, or since `failed` counted them (RFC 9260 8.1).
    pub unanswered: u32,
}

impl Model for ResetRequest {
    ghost use Rattle.sctp_reset.specs.Requests.{Request};

    ghost Value = { Request };

    ghost view = { λ r. record {
      number = r.number;
      last_tsn = r.last_tsn;
      streams = r.streams.items;
      at = r.at;
      unanswered = r.unanswered;
    } };
}

/// What a response says of the request under way (RFC 6525 4.4, 5.2.7).
#[derive(Drop)]
pub enum Answer {
    /// Success: the sequence numbers of its streams begin at 0 again.
    Performed(ResetRequest),
    /// It is over, and its streams go on as before.
    Refused(ResetRequest, ReconfigResult),
    /// It is in progress at the peer, and will be sent again.
    Wait,
    /// No request with this number is under way: nothing changes.
    NotUnderWay,
}

/// The streams that this side asks to be reset: those that wait, and the request under way.
#[derive(Drop)]
pub struct OwnRequests {
    waiting: Vec<u16>,
    under_way: Option<ResetRequest>,
    next_number: u32,
}

impl Model for OwnRequests {
    ghost use Rattle.sctp_reset.specs.Requests.{Requests, ListsStreams};

    ghost Value = { Requests };

    ghost view = { λ o. record {
      waiting = o.waiting.items;
      under_way = o.under_way;
      next_number = o.next_number;
    } };

    ghost invariant = { λ o. ListsStreams o.under_way };
}

impl OwnRequests {
    ghost use Rattle.sctp_reset.specs.Own.{start, is_asked, is_none_of, is_idle, after_ask, Tells, after_begin, due_at, time_of, after_failed, after_sent, answer_to, after_response, has_failed};

    /// Nothing is asked for. The first request has the number of the own first TSN (RFC 6525 4.1). It takes no memory.
    pub fn new(alloc: Global, first_tsn: u32) -> Self
        ensures { result ≡ start first_tsn }
    {
        OwnRequests {
            waiting: Vec::new(alloc),
            under_way: None,
            next_number: first_tsn,
        }
    }

    /// A stream is to be reset. It waits until it is drained; one that is asked for already changes nothing. Walks the streams
    /// asked for. Refuses only for memory, and nothing changes then.
    pub fn ask(&mut self, stream: u16) -> Result<()>
        ensures ok { OnOk result (self.new ≡ after_ask stream self.old) }
        ensures err { OnErr result (self.new ≡ self.old) }
        ensures memory { IsOkUnless result ErrOutOfMemory }
        ensures wants { OnErr result (is_asked stream self.old ≡ false) }
    {
        if !self.is_asked(stream) {
            self.waiting.push(stream)?;
        }
        Ok(())
    }

    /// Whether a stream waits for its reset, or the request under way lists it: until then nothing is written to it (RFC 6525 5.1.2
    /// A1). Walks the streams asked for.
    pub fn is_asked(&self, stream: u16) -> bool
        ensures { result ≡ is_asked stream self.now }
    {
        match &self.under_way {
            Some(request) if lists(&request.streams, stream) => true,
            _ => lists(&self.waiting, stream),
        }
    }

    /// Whether no stream is asked for.
    pub fn is_idle(&self) -> bool
        ensures { result ≡ is_idle self.now }
    {
        self.under_way.is_none() && self.waiting.is_empty()
    }

    /// Begins a request, where none is under way: with the streams that wait and are drained, at most `most` of them, in the order in
    /// which they were asked for (RFC 6525 5.1.2 A2 to A4). `last_tsn` is the last TSN assigned. It is due at once. Asks about
    /// each stream that waits at most once. Refuses only for memory, and nothing changes then.
    pub fn begin<F: Fn(u16) -> bool>(
        &mut self,
        alloc: Global,
        is_drained: F,
        most: usize,
        last_tsn: u32,
        now: u64,
    ) -> Result<()>
        requires { F.IsAlwaysCallable is_drained }
        ensures ok { (drained : ℕ → Bool) → Tells (F.post is_drained) drained
            → OnOk result (self.new ≡ after_begin drained most last_tsn now self.old) }
        ensures err { OnErr result (self.new ≡ self.old) }
        ensures memory { IsOkUnless result ErrOutOfMemory }
        ensures wants { OnErr result ((is_some self.old.under_way ≡ false)
            × (is_none_of self.old.waiting ≡ false)) }
    {
        if self.under_way.is_some() {
            return Ok(());
        }
        let (streams, left) = split(alloc, &self.waiting, is_drained, most)?;
        if !streams.is_empty() {
            self.waiting = left;
            self.under_way = Some(ResetRequest {
                number: self.next_number,
                last_tsn,
                streams,
                at: now,
                unanswered: 0,
            });
            self.next_number = self.next_number.wrapping_add(1);
        }
        Ok(())
    }

    /// The request that is to be sent, for the first time or again (RFC 6525 5.1.1).
    pub fn due(&self, now: u64) -> Option<&ResetRequest>
        ensures due { option_copied result ≡ due_at now self.now.under_way }
        ensures lists { IfSome result (λ r. 0 < length r.now.streams) }
    {
        match &self.under_way {
            Some(request) if request.at <= now => Some(request),
            _ => None,
        }
    }

    /// When the request under way is to be sent, for the first time or again.
    pub fn next_time(&self) -> Option<u64>
        ensures { result ≡ option_map time_of self.now.under_way }
    {
        match &self.under_way {
            Some(request) => Some(request.at),
            None => None,
        }
    }

    /// The request under way was sent: it is due again after a time of `rto`, unless a response comes.
    pub fn sent(&mut self, now: u64, rto: u64)
        ensures { self.new ≡ after_sent now rto self.old }
    {
        if let Some(request) = &mut self.under_way {
            request.at = now.saturating_add(rto);
            request.unanswered = request.unanswered.saturating_add(1);
        }
    }

    /// Whether the request under way is to be sent again, since nothing answered its sendings: that is one failure (RFC 6525 5.1.1, RFC 9260
    /// 8.1). It is told once for each sending.
    pub fn failed(&mut self, now: u64) -> bool
        ensures failed { result ≡ has_failed now self.old.under_way }
        ensures after { self.new ≡ after_failed now self.old }
    {
        match &mut self.under_way {
            Some(request) if request.at <= now && request.unanswered > 0 => {
                request.unanswered = 0;
                true
            }
            _ => false,
        }
    }

    /// A response came (RFC 6525 5.2.7). At "In progress" the request is sent again after a time of `rto`, and the sendings so far
    /// count as answered. Any other result ends it, "Bad sequence number" too: its number is used up, and the next one is taken
    /// where the streams are asked for again. It takes no memory, and walks nothing.
    pub fn response(&mut self, number: u32, outcome: ReconfigResult, now: u64, rto: u64) -> Answer
        ensures answer { result ≡ answer_to number outcome self.old.under_way }
        ensures rest { self.new ≡ after_response number outcome now rto self.old }
    {
        match self.under_way.take() {
            Some(request) if request.number == number => match outcome {
                ReconfigResult::SuccessNop => Answer::Performed(request),
                ReconfigResult::SuccessPerformed => Answer::Performed(request),
                ReconfigResult::InProgress => {
                    let mut request = request;
                    request.at = now.saturating_add(rto);
                    request.unanswered = 0;
                    self.under_way = Some(request);
                    Answer::Wait
                }
                refusal => Answer::Refused(request, refusal),
            },
            other => {
                self.under_way = other;
                Answer::NotUnderWay
            }
        }
    }
}

// Whether a stream is among these.
fn lists(streams: &[u16], stream: u16) -> bool
    ensures { result ≡ list_any (is_stream stream) streams.now }
{
    streams.iter().any(|listed| *listed == stream)
}

// The streams of which the call says that they are drained, at most so many; and the others. Refuses only for memory.
fn split<F: Fn(u16) -> bool>(
    alloc: Global,
    waiting: &[u16],
    is_drained: F,
    most: usize,
) -> Result<(Vec<u16>, Vec<u16>)>
    requires { F.IsAlwaysCallable is_drained }
    ensures ok { (drained : ℕ → Bool) → Tells (F.post is_drained) drained
        → IfOk result (λ r. (r.0.items ≡ picked drained most waiting.now)
        × (r.1.items ≡ unpicked drained most waiting.now)) }
    ensures memory { IsOkUnless result ErrOutOfMemory }
    ensures wants { OnErr result (0 < length waiting.now) }
{
    let mut streams = Vec::with_capacity(alloc, most.min(waiting.len()))?;
    let mut left = Vec::with_capacity(alloc, waiting.len())?;
    for stream in waiting {
        if streams.len() < most && is_drained(*stream) {
            streams.push(*stream)?;
        } else {
            left.push(*stream)?;
        }
    }
    Ok((streams, left))
}
