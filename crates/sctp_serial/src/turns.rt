//! A count of turns that only contracts read.

ghost use Rattle.std.specs.Prelude.{◌≡◌, ◌+◌};

use std::marker::Model;
use std::mem;
use std::snapshot::Snapshot;

// what was seen so far; it is only ever shown to a `Snapshot`
#[derive(Drop)]
enum Seen {
    Nothing,
    After(Snapshot<Seen>),
}

/// How many turns were taken: a whole number in contracts, and no bytes at run time.
///
/// Only `tick` raises it. A turn is one look at whatever the counting call says: a block, a TSN that leaves, a chunk, a stream's
/// name. Insertions, removals and the TSN of the first chunk take none.
#[derive(Drop)]
pub struct Turns {
    seen: Snapshot<Seen>,
}

impl Model for Turns {
    ghost use Rattle.std.specs.Prelude.{ℕ};
    ghost use Rattle.sctp_serial.specs.Turns.{count_of};

    ghost Value = { ℕ };

    ghost view = { λ t. count_of t.seen.value };
}

impl Turns {
    /// No turns.
    pub fn new() -> Turns
        ensures { result ≡ 0 }
    {
        Turns {
            seen: Snapshot::of(&Seen::Nothing),
        }
    }

    /// Adds one.
    pub fn tick(&mut self)
        ensures { self.new ≡ self.old + 1 }
    {
        let before = mem::replace(&mut self.seen, Snapshot::of(&Seen::Nothing));
        self.seen = Snapshot::of(&Seen::After(before));
    }
}

const _: () = prove!(size_of::<Turns>() == 0);
