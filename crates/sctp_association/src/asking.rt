//! The requests of this side to reset its streams, of which each fits into a packet.

ghost use Rattle.std.specs.Prelude.{◌≡◌, ◌≤◌, IfSome, IsOkUnless, OnErr, OnOk, length};
ghost use Rattle.std.specs.Option.{option_copied, option_map};
ghost use Rattle.sctp_association.specs.Requesting.{begun, due_of};
ghost use Rattle.sctp_reset.specs.Own.{after_ask, after_failed, after_response, after_sent, answer_to, has_failed, is_asked, is_idle, start, time_of};
ghost use Rattle.sctp_util.specs.declared.error.Error.TheVariants.{ErrOutOfMemory};

use sctp_params::ReconfigResult;
use sctp_reset::{Answer, OwnRequests, ResetRequest};
use sctp_sender::sender::Sender;
use sctp_util::error::Result;
use std::alloc::Global;
use std::marker::Model;

/// The most streams of a request: it then fits into the least packet.
pub(crate) const MOST_STREAMS: usize = 64;

/// The requests of this side (RFC 6525 5.1.1, 5.1.2): the one under way is of few streams.
#[derive(Drop)]
pub(crate) struct Asking {
    requests: OwnRequests,
}

impl Model for Asking {
    ghost use Rattle.std.specs.Prelude.{◌≤◌, length};
    ghost use Rattle.sctp_reset.specs.Requests.{Requests, streams_of};

    ghost Value = { Requests };

    ghost view = { λ a. a.requests };

    ghost invariant = { λ a. length (streams_of a.requests.under_way) ≤ 64 };
}

impl Asking {
    /// Nothing is asked for. The first request has the number of the own first TSN (RFC 6525 4.1). It takes no memory.
    pub(crate) fn new(alloc: Global, first_tsn: u32) -> Asking
        ensures { result ≡ start first_tsn }
    {
        Asking {
            requests: OwnRequests::new(alloc, first_tsn),
        }
    }

    /// A stream is to be reset, once it is drained. Refuses only for memory, and nothing changes then.
    #[tactic(auto, using(crate::proofs::Requesting::few_asked))]
    pub(crate) fn ask(&mut self, stream: u16) -> Result<()>
        ensures ok { OnOk result (self.new ≡ after_ask stream self.old) }
        ensures err { OnErr result (self.new ≡ self.old) }
        ensures memory { IsOkUnless result ErrOutOfMemory }
    {
        self.requests.ask(stream)
    }

    /// Whether a stream waits for its reset, or the request under way lists it.
    pub(crate) fn is_asked(&self, stream: u16) -> bool
        ensures { result ≡ is_asked stream self.now }
    {
        self.requests.is_asked(stream)
    }

    /// Whether no stream is asked for.
    pub(crate) fn is_idle(&self) -> bool
        ensures { result ≡ is_idle self.now }
    {
        self.requests.is_idle()
    }

    /// Begins a request, where none is under way, of the streams of which nothing waits or is in flight (RFC 6525 5.1.2). Refuses only for
    /// memory, and nothing changes then.
    pub(crate) fn begin(&mut self, alloc: Global, sender: &Sender, now: u64) -> Result<()>
        ensures ok { OnOk result (self.new ≡ begun now sender.now self.old) }
        ensures err { OnErr result (self.new ≡ self.old) }
        ensures memory { IsOkUnless result ErrOutOfMemory }
    {
        let last_tsn = sender.next_tsn().wrapping_sub(1);
        self.requests.begin(
            alloc,
            |stream| sender.is_drained(stream),
            MOST_STREAMS,
            last_tsn,
            now,
        )
    }

    /// The request that is to be sent, for the first time or again (RFC 6525 5.1.1). A time that passes the greatest moment does not come.
    #[tactic(auto, using(crate::proofs::Requesting::due_comes, crate::proofs::Requesting::due_never, crate::proofs::Requesting::due_none))]
    pub(crate) fn due(&self, now: u64) -> Option<&ResetRequest>
        ensures due { option_copied result ≡ due_of now self.now.under_way }
        ensures few { IfSome result (λ r. length r.now.streams ≤ 64) }
    {
        let request = self.requests.due(now)?;
        if request.at == u64::MAX {
            return None;
        }
        Some(request)
    }

    /// When the request under way is to be sent, for the first time or again.
    pub(crate) fn next_time(&self) -> Option<u64>
        ensures { result ≡ option_map time_of self.now.under_way }
    {
        self.requests.next_time()
    }

    /// The request under way was sent: it is due again after a time of `rto`, unless a response comes.
    #[tactic(auto, using(crate::proofs::Requesting::few_sent))]
    pub(crate) fn sent(&mut self, now: u64, rto: u64)
        ensures { self.new ≡ after_sent now rto self.old }
    {
        self.requests.sent(now, rto);
    }

    /// Whether the request under way is to be sent again, since nothing answered its sendings: it is told once for each of them.
    #[tactic(auto, using(crate::proofs::Requesting::few_failed))]
    pub(crate) fn failed(&mut self, now: u64) -> bool
        ensures failed { result ≡ has_failed now self.old.under_way }
        ensures after { self.new ≡ after_failed now self.old }
    {
        self.requests.failed(now)
    }

    /// A response came (RFC 6525 5.2.7).
    #[tactic(auto, using(crate::proofs::Requesting::few_answered))]
    pub(crate) fn response(
        &mut self,
        number: u32,
        outcome: ReconfigResult,
        now: u64,
        rto: u64,
    ) -> Answer
        ensures answer { result ≡ answer_to number outcome self.old.under_way }
        ensures rest { self.new ≡ after_response number outcome now rto self.old }
    {
        self.requests.response(number, outcome, now, rto)
    }
}
