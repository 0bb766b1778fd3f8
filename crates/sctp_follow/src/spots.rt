//! Where the fragments of I-DATA stand that are held: found by their TSNs, each once (RFC 8260).

ghost use Rattle.std.specs.Prelude.{◌≡◌, ℕ, ◌<◌, ◌==◌, None, Some, true, if◌then◌else◌, IfOk, OnOk, OnErr, IfSome, IfNone, OnSome};
ghost use Rattle.std.specs.BTreeMap as trees;
ghost use Rattle.std.specs.Ordering.{nat_cmp};
ghost use Rattle.sctp_util.specs.Serial.{at_or_before};
ghost use Rattle.sctp_follow.specs.Spots as spots;

use crate::interleave::{Fragment, Name, Whole};
use crate::keys::first_up_to;
use std::alloc::{AllocError, Global};
use std::collections::BTreeMap;

/// Where a fragment stands that is held: in its message, at its place.
#[derive(Clone, Copy)]
pub(crate) struct Spot {
    pub name: Name,
    pub place: u32,
}

/// The fragments that are held, and were not looked at since their TSNs were passed.
#[derive(Drop)]
pub(crate) struct Spots {
    by_tsn: BTreeMap<u32, Spot>,
}

impl Spots {
    /// None yet.
    pub(crate) fn new(alloc: Global) -> Self
        ensures { trees.IsEmpty result.by_tsn }
    {
        Spots {
            by_tsn: BTreeMap::new(alloc),
        }
    }

    /// Notes where a fragment stands. Refuses only for memory.
    pub(crate) fn add(&mut self, name: Name, fragment: &Fragment) -> Result<(), AllocError>
        ensures ok { OnOk result ((t : ℕ) → spots.at self.new t
            ≡ (if t == fragment.now.tsn then Some (spots.of name fragment.now) else spots.at self.old t)) }
        ensures err { OnErr result ((t : ℕ) → spots.at self.new t ≡ spots.at self.old t) }
    {
        let spot = Spot {
            name,
            place: fragment.place,
        };
        match self.by_tsn.insert(fragment.tsn, spot) {
            Ok(_) => Ok(()),
            Err(_) => Err(AllocError),
        }
    }

    /// Forgets the fragment of a TSN.
    pub(crate) fn forget(&mut self, tsn: u32)
        ensures { (t : ℕ) → spots.at self.new t ≡ (if t == tsn then None else spots.at self.old t) }
    {
        let _known = self.by_tsn.remove(&tsn);
    }

    /// Forgets the fragments of a message.
    pub(crate) fn forget_all(&mut self, fragments: &BTreeMap<u32, Fragment>)
        ensures { (t : ℕ) → spots.at self.new t
            ≡ (if spots.is_of (trees.values fragments.now) t then None else spots.at self.old t) }
    {
        for fragment in fragments.values() {
            self.forget(fragment.tsn);
        }
    }

    /// Forgets the fragments of messages that are read.
    pub(crate) fn forget_read(&mut self, messages: &[Whole])
        ensures { (t : ℕ) → spots.at self.new t
            ≡ (if spots.is_of_any messages.now t then None else spots.at self.old t) }
    {
        for message in messages {
            self.forget_all(&message.fragments);
        }
    }

    /// Takes the fragment out that has the first TSN up to this one.
    fn pop(&mut self, tsn: u32) -> Option<(u32, Spot)>
        ensures was { IfSome result (λ e. spots.at self.old e.0 ≡ Some e.1) }
        ensures up_to { IfSome result (λ e. (e.0 < 4294967296) × (at_or_before e.0 tsn ≡ true)) }
        ensures first { IfSome result (λ e. spots.IsFirst e.0 tsn self.old) }
        ensures left { IfSome result (λ e. (t : ℕ) → spots.at self.new t
            ≡ (if t == e.0 then None else spots.at self.old t)) }
        ensures none { IfNone result (spots.NoneUpTo tsn self.old) }
        ensures stays { IfNone result (self.new ≡ self.old) }
        ensures fewer { OnSome result
            (trees.btree_map_len self.new.by_tsn < trees.btree_map_len self.old.by_tsn) }
    {
        let first = first_up_to(&self.by_tsn, tsn)?;
        let spot = self.by_tsn.remove(&first)?;
        Some((first, spot))
    }

    /// Takes the fragments out whose TSNs lie no later than this one, the first one first. Refuses only for memory.
    pub(crate) fn pop_each(
        &mut self,
        alloc: Global,
        tsn: u32,
    ) -> Result<Vec<(u32, Spot)>, AllocError>
        ensures { IfOk result (λ due. spots.AreDue tsn due.items self.old self.new) }
    {
        let mut due = Vec::new(alloc);
        'popping: while let Some(spot) = self.pop(tsn) {
            due.push(spot)?;
        }
        Ok(due)
    }
}
