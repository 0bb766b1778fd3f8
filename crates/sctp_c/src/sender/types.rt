//! The payload types of messages that have no name here (RFC 9260 3.3.1), found by the numbers of the messages.

ghost use Rattle.std.specs.Prelude.{◌≡◌, ◌≢◌, ◌<◌, ◌≤◌, ℕ, [], nat_lt, true, false, length, IfOk, OnErr};
ghost use Rattle.std.specs.List.{insert, remove};
ghost use Rattle.std.specs.List.Sorted.{IsPartitionPoint};
ghost use Rattle.sctp_c.specs.Types.{KeepsTypes, Sees, SeesSent, SeesWaiting, is_stamped, noted, type_of};
ghost use Rattle.sctp_outbound.specs.pending_queue.PendingQueue.{chunk_count};

use sctp_data::chunk::chunk_payload_data::ChunkPayloadData;
use sctp_outbound::outbound_queue::OutboundQueue;
use std::alloc::{AllocError, Global};
use std::marker::Model;

/// The payload type of a message, and when it was last seen that the message waits or is in flight.
#[derive(Clone, Copy)]
pub struct Noted {
    message: u64,
    number: u32,
    stamp: u64,
}

/// The payload types of messages, in the order of the messages' numbers.
#[derive(Drop)]
pub struct Types {
    rows: Vec<Noted>,
}

impl Model for Types {
    ghost use Rattle.std.specs.Prelude.{List};
    ghost use Rattle.sctp_c.specs.Types.{Up};
    ghost use Rattle.sctp_c.specs.declared.sender.types.Noted.{Noted};

    ghost Value = { List Noted };

    ghost view = { λ t. t.rows.items };

    ghost invariant = { λ t. Up t.rows.items };
}

impl Types {
    /// Of no message.
    pub fn new(alloc: Global) -> Types
        ensures { result ≡ [] }
    {
        Types {
            rows: Vec::new(alloc),
        }
    }

    /// How many there are.
    pub fn len(&self) -> usize
        ensures { result ≡ length self.now }
    {
        self.rows.len()
    }

    // How many messages have lower numbers.
    fn before(&self, message: u64) -> usize
        ensures bound { result ≤ length self.now }
        ensures point { IsPartitionPoint (λ r. nat_lt r.message message ≡ true)
            (λ r. nat_lt r.message message ≡ false) self.now result }
    {
        self.rows.partition_point(|row| row.message < message)
    }

    /// The payload type of a message, 58 where none is noted.
    pub fn get(&self, message: u64) -> u32
        ensures { result ≡ type_of message self.now }
    {
        let place = self.before(message);
        if place >= self.rows.len() {
            return 58;
        }
        let row = self.rows[place];
        if row.message != message {
            return 58;
        }
        row.number
    }

    /// Notes the payload type of a message, and answers its place. Refuses only for memory, and nothing changes then.
    pub fn note(&mut self, message: u64, number: u32) -> Result<usize, AllocError>
        ensures ok { IfOk result (λ n. (n ≤ length self.old)
            × (self.new ≡ insert self.old n (noted message number))) }
        ensures given { IfOk result (λ _. type_of message self.new ≡ number) }
        ensures others { IfOk result (λ _. (m : ℕ) → m ≢ message
            → type_of m self.new ≡ type_of m self.old) }
        ensures err { OnErr result (self.new ≡ self.old) }
    {
        let place = self.before(message);
        let row = Noted {
            message,
            number,
            stamp: 0,
        };
        if self.rows.insert(place, row).is_err() {
            return Err(AllocError);
        }
        Ok(place)
    }

    /// Takes out what was noted at a place.
    pub fn forget(&mut self, place: usize)
        requires { place < length self.old }
        ensures { self.new ≡ remove self.old place }
    {
        self.rows.remove(place);
    }

    // Notes that a message was seen.
    fn see(&mut self, message: u64, stamp: u64)
        ensures same { (m : ℕ) → type_of m self.new ≡ type_of m self.old }
        ensures seen { is_stamped stamp message self.new ≡ true }
        ensures kept { (m : ℕ) → is_stamped stamp m self.old ≡ true
            → is_stamped stamp m self.new ≡ true }
    {
        let place = self.before(message);
        if place >= self.rows.len() {
            return;
        }
        if self.rows[place].message != message {
            return;
        }
        self.rows[place].stamp = stamp;
    }

    // Sees the message of a chunk, where its payload type has no name.
    fn see_chunk(&mut self, chunk: &ChunkPayloadData, stamp: u64)
        ensures same { (m : ℕ) → type_of m self.new ≡ type_of m self.old }
        ensures seen { Sees stamp self.new chunk.now }
        ensures kept { (m : ℕ) → is_stamped stamp m self.old ≡ true
            → is_stamped stamp m self.new ≡ true }
    {
        if chunk.payload_type.number() == 58 {
            self.see(chunk.message_id, stamp);
        }
    }

    // Sees the messages of what waits.
    fn see_waiting(&mut self, queue: &OutboundQueue, stamp: u64)
        ensures same { (m : ℕ) → type_of m self.new ≡ type_of m self.old }
        ensures seen { SeesWaiting stamp self.new queue.now
            (chunk_count queue.now.pending) }
    {
        for place in 0..queue.pending_len() {
            if let Some(chunk) = queue.peek_pending_at(place) {
                self.see_chunk(chunk, stamp);
            }
        }
    }

    // Sees the messages of what is in flight.
    fn see_sent(&mut self, queue: &OutboundQueue, stamp: u64)
        ensures same { (m : ℕ) → type_of m self.new ≡ type_of m self.old }
        ensures seen { SeesSent stamp self.new queue.now (length queue.now.inflight.chunks) }
        ensures kept { (m : ℕ) → is_stamped stamp m self.old ≡ true
            → is_stamped stamp m self.new ≡ true }
    {
        for place in 0..queue.inflight_len() {
            if let Some(chunk) = queue.inflight_at(place) {
                self.see_chunk(chunk, stamp);
            }
        }
    }

    // Keeps the messages that were seen.
    fn keep_seen(&mut self, stamp: u64)
        ensures { (m : ℕ) → is_stamped stamp m self.old ≡ true
            → type_of m self.new ≡ type_of m self.old }
    {
        self.rows.retain(|row| row.stamp == stamp);
    }

    /// Forgets messages of which nothing waits and nothing is in flight, but not the one with this number. It takes no memory.
    pub fn prune(&mut self, queue: &OutboundQueue, message: u64)
        ensures types { KeepsTypes self.old self.new queue.now }
        ensures given { type_of message self.new ≡ type_of message self.old }
    {
        let stamp = queue.next_message_id();
        self.see_waiting(queue, stamp);
        self.see_sent(queue, stamp);
        self.see(message, stamp);
        self.keep_seen(stamp);
    }
}
