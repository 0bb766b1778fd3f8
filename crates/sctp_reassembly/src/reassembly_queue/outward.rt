//! The run that holds a fragment, looked for to both sides in turn, so that the shorter side bounds the looks.

ghost use Rattle.std.specs.Prelude.{◌≡◌, ℕ, ◌+◌, ◌-◌, ◌*◌, ◌<◌, ◌≤◌, length, remove, slice_index_or, true, false, IfSome, IfNone};
ghost use Rattle.sctp_data.specs.declared.chunk.chunk_payload_data.ChunkPayloadData.{ChunkPayloadData};
ghost use Rattle.sctp_serial.specs.Runs.{IsEarliestRunAround, HasNoRunAround, HasNoRun, IsStretch};
ghost use Rattle.sctp_reassembly.specs.reassembly_queue.Outward.{IsFront, IsBack, IsStepBack, IsStepOn};

use crate::reassembly_queue::unassembled::Loose;
use sctp_data::chunk::chunk_payload_data::ChunkPayloadData;
use sctp_serial::turns::Turns;

/// How far a search has come to one side: a place, the TSN there, and whether the message begins, or ends, there.
#[derive(Clone, Copy)]
pub(crate) struct Side {
    pub(crate) place: usize,
    pub(crate) tsn: u32,
    pub(crate) done: bool,
}

// A step back to the fragment before, unless the message begins here; None where no run holds the place: there is no fragment
// before, its TSN is not the one before, or it ends a message, where without the fragment at the place none is complete.
fn step_back(
    unassembled: &Loose,
    place: usize,
    alone: bool,
    side: Side,
    turns: &mut Turns,
) -> Option<Side>
    requires in_range { place < length unassembled.now.chunks }
    requires alone { alone ≡ true → HasNoRun (remove unassembled.now.chunks place) }
    requires side { IsFront unassembled.now.chunks place side }
    ensures found { IfSome result (λ s. IsFront unassembled.now.chunks place s) }
    ensures step { IfSome result (λ s. IsStepBack side s turns.old turns.new) }
    ensures none { IfNone result (HasNoRunAround unassembled.now.chunks place) }
    ensures open { IfNone result (side.done ≡ false) }
    ensures cost { turns.new ≤ turns.old + 1 }
    ensures not_back { turns.old ≤ turns.new }
{
    if side.done {
        return Some(side);
    }
    if side.place == 0 {
        return None;
    }
    let before = unassembled.look(side.place - 1, turns);
    if alone && before.ending_fragment {
        return None;
    }
    if side.tsn != before.tsn.wrapping_add(1) {
        return None;
    }
    Some(Side {
        place: side.place - 1,
        tsn: before.tsn,
        done: before.beginning_fragment,
    })
}

// A step on to the fragment after, unless the message ends here; None where no run holds the place: there is no fragment after, its
// TSN is not the next, or it begins a message.
fn step_on(unassembled: &Loose, place: usize, side: Side, turns: &mut Turns) -> Option<Side>
    requires side { IsBack unassembled.now.chunks place side }
    ensures found { IfSome result (λ s. IsBack unassembled.now.chunks place s) }
    ensures step { IfSome result (λ s. IsStepOn side s turns.old turns.new) }
    ensures none { IfNone result (HasNoRunAround unassembled.now.chunks place) }
    ensures open { IfNone result (side.done ≡ false) }
    ensures cost { turns.new ≤ turns.old + 1 }
    ensures not_back { turns.old ≤ turns.new }
{
    let len = unassembled.len();
    if side.done {
        return Some(side);
    }
    if side.place + 1 == len {
        return None;
    }
    let after = unassembled.look(side.place + 1, turns);
    if after.beginning_fragment {
        return None;
    }
    if after.tsn != side.tsn.wrapping_add(1) {
        return None;
    }
    Some(Side {
        place: side.place + 1,
        tsn: after.tsn,
        done: after.ending_fragment,
    })
}

// Whether no run holds the place since its message goes on beyond all fragments: at the back it does not end, or at the front it
// does not begin. So of each fragment of a message that comes in order or reversed, but the last.
fn goes_on_beyond(unassembled: &Loose, place: usize, here: &ChunkPayloadData) -> bool
    requires in_range { place < length unassembled.now.chunks }
    requires value { here.now ≡ slice_index_or unassembled.now.chunks place here.now }
    ensures { result ≡ true → HasNoRunAround unassembled.now.chunks place }
{
    let len = unassembled.len();
    if place + 1 == len && !here.ending_fragment {
        return true;
    }
    if place == 0 && !here.beginning_fragment {
        return true;
    }
    false
}

/// The place and the length of the run that holds the place, the one that ends earliest; None where there is
/// none. A run is a complete message: it begins, no other fragment in it does, TSNs rise by one, and its last ends.
///
/// It takes at most one turn more than there are fragments in the stretch of neighbours that holds the place, TSNs up by one, and
/// a run as many as it has fragments. Where no fragment of the stretch up to the place begins, it takes at most twice as many turns
/// as there are before the place, and 2; where none from the place on ends, twice as many as there are behind it, and 3. So each
/// fragment of a message that comes in order or reversed, but the last, takes three at most.
/// Precondition: the place has a fragment.
pub fn run_around(unassembled: &Loose, place: usize, turns: &mut Turns) -> Option<(usize, usize)>
    requires in_range { place < length unassembled.now.chunks }
    ensures found { IfSome result
        (λ run. IsEarliestRunAround unassembled.now.chunks place run.0 run.1) }
    ensures none { IfNone result (HasNoRunAround unassembled.now.chunks place) }
    ensures spent { IfSome result (λ run. turns.new ≡ turns.old + run.1) }
    ensures not_back { turns.old ≤ turns.new }
    ensures cost { (first last : ℕ) → IsStretch unassembled.now.chunks place first last
        → turns.new ≤ turns.old + (last + 1 - first) + 1 }
    ensures walk { turns.new ≤ turns.old + length unassembled.now.chunks + 1 }
    ensures no_beginning { (first last : ℕ) → IsStretch unassembled.now.chunks place first last
        → ((k : ℕ) (d : ChunkPayloadData) → first ≤ k → k ≤ place
        → (slice_index_or unassembled.now.chunks k d).beginning_fragment ≡ false)
        → turns.new ≤ turns.old + 2 * (place - first) + 2 }
    ensures no_ending { (first last : ℕ) → IsStretch unassembled.now.chunks place first last
        → ((k : ℕ) (d : ChunkPayloadData) → place ≤ k → k ≤ last
        → (slice_index_or unassembled.now.chunks k d).ending_fragment ≡ false)
        → turns.new ≤ turns.old + 2 * (last - place) + 3 }
{
    // places fit, and so does the length of a run
    let _len = unassembled.len();
    let alone = unassembled.is_apart(place);
    let here = unassembled.look(place, turns);
    if goes_on_beyond(unassembled, place, here) {
        return None;
    }
    let mut front = Side {
        place,
        tsn: here.tsn,
        done: here.beginning_fragment,
    };
    let mut back = Side {
        place,
        tsn: here.tsn,
        done: here.ending_fragment,
    };
    while !front.done || !back.done {
        front = step_back(unassembled, place, alone, front, turns)?;
        back = step_on(unassembled, place, back, turns)?;
    }
    Some((front.place, back.place + 1 - front.place))
}
