//! What holds of every receiver, or after every run of its calls: a law, the contract of a function that does nothing.

pub mod counters;
pub mod credit;
pub mod drains;
pub mod duplicates;

ghost use Rattle.sctp_receiver.specs.ReceiverRuns.{AfterEachRun, AfterEachRunWithin, AreComplete, AreOfOneMessage, CostsLittle, HoldsFewChunks, KeepsFewTsns, NotesFewDuplicates, WereAccepted};
ghost use Rattle.sctp_receiver.specs.Advice.{AdviceSettles, SkipAdviceSettles};
ghost use Rattle.sctp_receiver.specs.SkipCosts.{SkipsCostByWhatIsHeld};

/// Whatever chunks come to a receiver, and whichever streams are opened and closed, each message that it hands out is complete: its
/// fragments have consecutive TSNs, the first begins and the last ends. They are alike: all unordered, or all ordered with one stream
/// sequence number; inside an unordered message none begins and none ends. They are chunks of its stream that the receiver took as
/// new, and none of those serves in two messages, or twice in one. Inside an ordered message a fragment may begin or end, where a
/// peer sends such flags.
pub fn messages_are_of_accepted_chunks()
    ensures complete { AfterEachRun AreComplete }
    ensures alike { AfterEachRun AreOfOneMessage }
    ensures accepted { AfterEachRun WereAccepted }
{}

/// Whatever chunks come to a receiver with limits, and whichever streams are opened, closed and read, what it holds stays within them:
/// by `CHUNK_COST`, the chunks that are held count for no more than the window and one chunk for each TSN within reach; and with
/// their bytes too, where each chunk that was taken has at most so many. No more TSNs stand beyond the cumulative one than within reach,
/// and no more duplicates are noted than one SACK can report.
pub fn what_is_held_is_bounded()
    ensures chunks { AfterEachRunWithin HoldsFewChunks }
    ensures bytes { AfterEachRunWithin CostsLittle }
    ensures beyond { AfterEachRunWithin KeepsFewTsns }
    ensures duplicates { AfterEachRunWithin NotesFewDuplicates }
{}

/// What a FORWARD-TSN looks at within streams, by the bound of `costs::forward_tsn` (`skips_walk`): each ordered message
/// that was not read at most 14 times, each of their fragments and each unassembled one six times, each name twice, and once each of the
/// streams that have any of these. So it costs what is held, once, however often it names a stream.
pub fn a_skip_costs_by_what_is_held()
    ensures { SkipsCostByWhatIsHeld }
{}

/// No chunk waits for ever. A chunk of the lowest missing TSN, where no stream has a message to read, is taken by `data`, or the advice at its
/// refusal (`advice::advise`) settles it: following that, `discard` takes its TSN without memory, once its stream is closed where its message
/// is too long; or `data` takes it on the stream that was opened for it; or the association ends. So of a FORWARD-TSN (`advice::advise_skip`), but one half the circle away.
pub fn no_chunk_waits_for_ever()
    ensures chunks { AdviceSettles }
    ensures skips { SkipAdviceSettles }
{}
