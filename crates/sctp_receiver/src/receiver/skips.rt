//! A FORWARD-TSN, and what no name of it covers (RFC 3758 3.6).

ghost use Rattle.std.specs.Prelude.{◌≤◌, ◌+◌};
ghost use Rattle.sctp_data.specs.ForwardTsn.{forward_tsn_of};

use crate::receiver::Receiver;
use crate::receiver::arrival::{Closed, Forwarded};
use crate::receiver::refusal::ReceiverRefusal;
use crate::receiver::visit::Skip;
use sctp_data::chunk::chunk_forward_tsn::ChunkForwardTsn;
use sctp_serial::turns::Turns;
use sctp_util::util::sna32lte;

impl Receiver {
    ghost use Rattle.sctp_receiver.specs.Calls.{Skips, SkipsByNames, SkipsCounted};
    ghost use Rattle.sctp_receiver.specs.Costs.{names_turns};
    ghost use Rattle.sctp_receiver.specs.SkipCosts.{names_walk, unordered_skips_walk};
    ghost use Rattle.sctp_receiver.specs.Skips.{past_closed_refusal, refusal_to_skip};

    /// Takes a FORWARD-TSN (RFC 3758 3.6): `Skipped`, where its TSN comes after the cumulative one, else `Stale`, which changes nothing.
    /// It discards what the chunk names, and each ordered message that misses a TSN at or before the chunk's. It refuses, by the first
    /// that holds, with `NamedStreamUnknown` (`Closed::Refuse` alone), `NamedSsnTooFar` or `TsnOpposite`, and changes nothing then.
    pub fn forward_tsn(
        &mut self,
        chunk: &ChunkForwardTsn,
        closed: Closed,
    ) -> Result<Forwarded, ReceiverRefusal>
        ensures { Skips
            (refusal_to_skip closed) (forward_tsn_of chunk.now) self.old self.new result }
    {
        self.follow(chunk, closed, &mut Turns::new(), &mut Turns::new())
    }

    // The same. Its turns are added, and what it looks at within streams is added to `skips` (`skips_walk`).
    pub(crate) fn follow(
        &mut self,
        chunk: &ChunkForwardTsn,
        closed: Closed,
        turns: &mut Turns,
        skips: &mut Turns,
    ) -> Result<Forwarded, ReceiverRefusal>
        ensures { SkipsCounted (refusal_to_skip closed) (forward_tsn_of chunk.now)
            self.old self.new result turns.old turns.new skips.old skips.new }
    {
        match closed {
            Closed::Refuse => {
                if self.names_closed(chunk) {
                    return Err(ReceiverRefusal::NamedStreamUnknown);
                }
                self.follow_past_closed(chunk, turns, skips)
            }
            Closed::PassOver => self.follow_past_closed(chunk, turns, skips),
        }
    }

    // The same, where names of streams that are not open are passed over.
    fn follow_past_closed(
        &mut self,
        chunk: &ChunkForwardTsn,
        turns: &mut Turns,
        skips: &mut Turns,
    ) -> Result<Forwarded, ReceiverRefusal>
        ensures { SkipsCounted past_closed_refusal (forward_tsn_of chunk.now)
            self.old self.new result turns.old turns.new skips.old skips.new }
    {
        if self.names_too_far(chunk, skips) {
            return Err(ReceiverRefusal::NamedSsnTooFar);
        }
        let forwarded = self.follow_names(chunk, turns, skips)?;
        if let Forwarded::Skipped = forwarded {
            let tsn = chunk.new_cumulative_tsn;
            self.streams.forward(Skip::Incomplete, tsn, turns, skips);
        }
        Ok(forwarded)
    }

    // Takes a FORWARD-TSN by what it names alone, and tests no name. Its turns are added. What it looks at within streams is added to
    // `skips`: one turn for each name; for each stream that is named, however often, at most five for each ordered message that it held
    // before the chunk, and two for each of their fragments; and in all streams six for each unassembled fragment, and one more for each
    // stream that has these or ordered messages. It takes no memory.
    pub(crate) fn follow_names(
        &mut self,
        chunk: &ChunkForwardTsn,
        turns: &mut Turns,
        skips: &mut Turns,
    ) -> Result<Forwarded, ReceiverRefusal>
        ensures names { SkipsByNames (forward_tsn_of chunk.now) self.old self.new result }
        ensures not_back { turns.old ≤ turns.new }
        ensures cost { turns.new
            ≤ turns.old + names_turns (forward_tsn_of chunk.now) self.old self.new }
        ensures skips_not_back { skips.old ≤ skips.new }
        ensures walk { skips.new ≤ skips.old + names_walk (forward_tsn_of chunk.now) self.old
            + unordered_skips_walk self.old.streams }
    {
        let tsn = chunk.new_cumulative_tsn;
        if self.filter.is_opposite(tsn) {
            return Err(ReceiverRefusal::TsnOpposite);
        }
        if sna32lte(tsn, self.filter.cumulative_tsn()) {
            return Ok(Forwarded::Stale);
        }
        self.streams
            .forward_named_counted(&chunk.streams, turns, skips);
        self.streams.forward(Skip::Unassembled, tsn, turns, skips);
        self.filter.skip_to_counted(tsn, turns);
        self.filter.settle();
        Ok(Forwarded::Skipped)
    }
}
