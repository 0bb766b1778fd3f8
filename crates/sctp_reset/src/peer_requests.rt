//! The requests of the peer, and what they are answered (RFC 6525 5.2.1).

ghost use Rattle.std.specs.Prelude.{◌≡◌, true};

use sctp_params::{ParamReconfigResponse, ReconfigResult};

/// What is to be done with a request of the peer.
#[derive(Clone, Copy, Debug, PartialEq, Eq)]
pub enum Due {
    /// It is the expected one: the caller performs or denies it, and then calls `answered`.
    Perform,
    /// It was answered for good, and comes again: the same response is due, and nothing is to be done.
    Again(ReconfigResult),
    /// Its number is of no such request: "Bad sequence number" is due, and nothing is to be done.
    Bad,
}

/// The peer's requests to reconfigure streams, of any kind, and the responses that are due. It takes no memory: it keeps the results
/// of the last two requests, and at most two responses, as many as a RE-CONFIG chunk has parameters (RFC 6525 3.1).
#[derive(Debug, Drop)]
pub struct PeerRequests {
    expected: u32,
    // Whether the expected request came, and has no answer yet but "In progress".
    is_awaited: bool,
    last: Option<ReconfigResult>,
    earlier: Option<ReconfigResult>,
    newer: Option<ParamReconfigResponse>,
    older: Option<ParamReconfigResponse>,
}

impl PeerRequests {
    ghost use Rattle.sctp_reset.specs.Peer.{expects, last_number, due_for, after_request, after_answer, respond, kept_result, first_due, without_first};

    /// No request came yet. The first one has the number of the peer's first TSN (RFC 6525 4.1).
    pub fn new(first_tsn: u32) -> Self
        ensures { result ≡ expects first_tsn }
    {
        PeerRequests {
            expected: first_tsn,
            is_awaited: false,
            last: None,
            earlier: None,
            newer: None,
            older: None,
        }
    }

    /// The number of the request before the expected one: an Outgoing SSN Reset Request has it as its response number where it
    /// answers no request (RFC 6525 4.1).
    pub fn last_number(&self) -> u32
        ensures { result ≡ last_number self.now }
    {
        self.expected.wrapping_sub(1)
    }

    /// Whether the expected request came and waits for `answered`: it came just now, or "In progress" was its answer.
    pub fn is_awaited(&self) -> bool
        ensures { result ≡ self.now.is_awaited }
    {
        self.is_awaited
    }

    /// A request came (RFC 6525 5.2.1). Where it is not to be performed, its response is due.
    pub fn request(&mut self, number: u32) -> Due
        ensures due { result ≡ due_for number self.old }
        ensures rest { self.new ≡ after_request number self.old }
    {
        if number == self.expected {
            self.is_awaited = true;
            return Due::Perform;
        }
        match self.kept_result(number) {
            Some(outcome) => {
                self.respond(number, outcome);
                Due::Again(outcome)
            }
            None => {
                self.respond(number, ReconfigResult::ErrorBadSequenceNumber);
                Due::Bad
            }
        }
    }

    /// The expected request is answered: its response is due. "In progress" is not the last word, and the same request is still
    /// expected. Any other result is, and it is kept.
    /// Precondition: the request came, and has no last word yet.
    pub fn answered(&mut self, outcome: ReconfigResult)
        requires { self.old.is_awaited ≡ true }
        ensures { self.new ≡ after_answer outcome self.old }
    {
        let number = self.expected;
        if outcome != ReconfigResult::InProgress {
            self.expected = number.wrapping_add(1);
            self.is_awaited = false;
            self.earlier = self.last;
            self.last = Some(outcome);
        }
        self.respond(number, outcome);
    }

    /// Takes the response that is due, the older one first; None where none is.
    pub fn take_response(&mut self) -> Option<ParamReconfigResponse>
        ensures response { result ≡ first_due self.old }
        ensures rest { self.new ≡ without_first self.old }
    {
        match self.older.take() {
            Some(response) => Some(response),
            None => self.newer.take(),
        }
    }

    // What a request that came before was answered for good.
    fn kept_result(&self, number: u32) -> Option<ReconfigResult>
        ensures { result ≡ kept_result number self.now }
    {
        let next = number.wrapping_add(1);
        if next == self.expected {
            self.last
        } else if next.wrapping_add(1) == self.expected {
            self.earlier
        } else {
            None
        }
    }

    // A response is due.
    fn respond(&mut self, number: u32, outcome: ReconfigResult)
        ensures { self.new ≡ respond number outcome self.old }
    {
        let is_new = match &self.newer {
            Some(newer) => newer.reconfig_response_sequence_number != number,
            None => true,
        };
        if is_new {
            self.older = self.newer;
        }
        self.newer = Some(ParamReconfigResponse {
            reconfig_response_sequence_number: number,
            result: outcome,
            next_tsns: None,
        });
    }
}
