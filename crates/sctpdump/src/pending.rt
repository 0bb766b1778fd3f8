//! SACKs that acknowledge TSNs which were not captured so far.

use crate::text::Moment;
use std::alloc::{AllocError, Global};
use std::collections::VecDeque;

/// Behind so many packets of its association a TSN that a SACK acknowledged is taken as not captured. Captures of several points that were
/// merged by their times may have a SACK before its DATA.
const PATIENCE: u64 = 64;

/// A SACK that acknowledges TSNs which were not captured so far.
#[derive(Clone, Copy)]
pub struct Pending {
    /// The cumulative TSN of the SACK.
    pub tsn: u32,
    pub moment: Moment,
    /// Whether its packet is shown.
    pub is_shown: bool,
    /// Behind how many packets of the association it stands.
    packets: u64,
}

/// The SACKs of one way, in the order of the capture.
#[derive(Drop)]
pub struct Acknowledged {
    waiting: VecDeque<Pending>,
}

impl Acknowledged {
    /// None yet.
    pub fn new(alloc: Global) -> Self {
        Acknowledged {
            waiting: VecDeque::new(alloc),
        }
    }

    /// Keeps a SACK behind so many packets of its association.
    pub fn keep(
        &mut self,
        tsn: u32,
        moment: Moment,
        is_shown: bool,
        packets: u64,
    ) -> Result<(), AllocError> {
        self.waiting.push_back(Pending {
            tsn,
            moment,
            is_shown,
            packets,
        })?;
        Ok(())
    }

    /// How many are kept.
    pub fn len(&self) -> usize {
        self.waiting.len()
    }

    /// The first one that is kept.
    pub fn first(&self) -> Option<Pending> {
        self.waiting.front().copied()
    }

    /// Forgets the first one.
    pub fn forget(&mut self) {
        let _first = self.waiting.pop_front();
    }
}

impl Pending {
    /// Whether it is waited for no longer, behind so many packets of the association.
    pub fn is_due(&self, packets: u64) -> bool {
        packets.saturating_sub(self.packets) >= PATIENCE
    }
}
