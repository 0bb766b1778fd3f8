//! Fragments that wait to be sent.

ghost use Rattle.std.specs.Prelude.{◌≡◌, ◌==◌, ◌+◌, ◌^◌, ◌<◌, ◌≤◌, ◌||◌, [], length, map, OnOk, OnErr, IsOk, IsOkUnless, IfSome, IfNone, option_copied, slice_get, true, false};
ghost use Rattle.std.specs.List.{list_any};
ghost use Rattle.sctp_util.specs.declared.error.Error.TheVariants.{ErrOutOfMemory};
ghost use Rattle.sctp_outbound.specs.Marks.{is_of};
ghost use Rattle.sctp_outbound.specs.outbound_queue.OutboundQueue.{append_chunks, with_message_id};
ghost use Rattle.sctp_outbound.specs.pending_queue.Whole.{AreWhole, NumbersAscend, order_of, ordered_first, stage_of, stand_in_front};
ghost use Rattle.sctp_serial.specs.DataChunks.{bytes_of, is_on};
ghost use Rattle.sctp_outbound.specs.pending_queue.PendingQueue.{list_to_pop, selected_after, selected_without};

pub(crate) mod line;

use self::line::Line;
use sctp_data::chunk::chunk_payload_data::ChunkPayloadData;
use sctp_util::error::Result;
use std::alloc::Global;
use std::marker::Model;

/// A message whose first fragment left and whose ending fragment did not. The queue goes on with
/// its list until then, so that the TSNs of its fragments can follow one another (RFC 4960 3.3.1).
#[derive(Clone, Copy, PartialEq, Eq)]
pub struct Selected {
    /// Its number.
    pub message_id: u64,
    /// Which list it is in.
    pub unordered: bool,
}

/// An ordered and an unordered list, each first in first out, and the partially sent message.
#[derive(Drop)]
pub struct PendingQueue {
    ordered: Line,
    unordered: Line,
    selected: Option<Selected>,
}

impl Model for PendingQueue {
    ghost use Rattle.std.specs.Prelude.{◌+◌, ◌^◌, ◌<◌};
    ghost use Rattle.sctp_outbound.specs.pending_queue.PendingQueue.{Pending};
    ghost use Rattle.sctp_serial.specs.DataChunks.{bytes_of};

    ghost Value = { Pending };

    ghost view = { λ q. record {
      ordered = q.ordered.chunks;
      unordered = q.unordered.chunks;
      selected = q.selected;
      ordered_room = q.ordered.room;
      unordered_room = q.unordered.room;
    } };

    ghost invariant = { λ q. bytes_of q.ordered.chunks + bytes_of q.unordered.chunks < 2 ^ 64 };
}

impl PendingQueue {
    ghost use Rattle.sctp_outbound.specs.pending_queue.PendingQueue.{Pending, chunk_count, total_bytes, room_for, with_room, push_pending, next_pending, chunk_to_pop, rest_after, list_of, rest_of, removed_bytes, last_removed, without, closed_up, lowered, start_pending};

    /// A queue of nothing. It takes no memory.
    pub fn new(alloc: Global) -> Self
        ensures { result ≡ record {
          ordered = [];
          unordered = [];
          selected = None;
          ordered_room = 0;
          unordered_room = 0;
        } }
    {
        PendingQueue {
            ordered: Line::new(alloc),
            unordered: Line::new(alloc),
            selected: None,
        }
    }

    /// Puts a chunk behind the others of the list that its `unordered` names.
    /// Precondition: the bytes of all, with its own, are fewer than 2^64.
    /// Refuses only for memory, and never within the room of `reserve`. The queue is as it was then.
    #[inline(always)]
    pub fn push(&mut self, chunk: ChunkPayloadData) -> Result<()>
        requires { total_bytes self.old + length chunk.user_data < 2 ^ 64 }
        ensures ok { OnOk result (self.new ≡ push_pending self.old chunk) }
        ensures err { OnErr result (self.new ≡ self.old) }
        ensures memory { IsOkUnless result ErrOutOfMemory }
        ensures succeeds { 0 < room_for self.old chunk.unordered → IsOk result }
    {
        if chunk.unordered {
            self.unordered.push_back(chunk)
        } else {
            self.ordered.push_back(chunk)
        }
    }

    /// Puts the fragments of a message behind those of one list, under its number.
    /// Precondition: the bytes of all, with theirs, are fewer than 2^64.
    /// Refuses only for memory, and never within the room of `reserve`. The queue is as it was then.
    #[inline(always)]
    pub(crate) fn push_message(
        &mut self,
        chunks: Vec<ChunkPayloadData>,
        unordered: bool,
        message_id: u64,
    ) -> Result<()>
        requires { total_bytes self.old + bytes_of chunks.items < 2 ^ 64 }
        ensures ok { OnOk result (self.new
            ≡ append_chunks unordered (map (with_message_id message_id) chunks.items) self.old) }
        ensures bytes { OnOk result (total_bytes self.new
            ≡ total_bytes self.old + bytes_of chunks.items) }
        ensures err { OnErr result (self.new ≡ self.old) }
        ensures memory { IsOkUnless result ErrOutOfMemory }
        ensures succeeds { length chunks.items ≤ room_for self.old unordered → IsOk result }
    {
        if unordered {
            self.unordered.append(chunks, message_id)
        } else {
            self.ordered.append(chunks, message_id)
        }
    }

    /// Starts the lifetimes of timed messages numbered from `first_message_id` on that have no deadline yet:
    /// it is `now`, in nanoseconds, plus the milliseconds of their reliability, or none where that passes
    /// the greatest u64. Messages that establish a channel never get one (RFC 8832 6). It takes no memory.
    pub fn start_timed_messages(&mut self, first_message_id: u64, now: u64)
        ensures { self.new ≡ start_pending first_message_id now self.old }
    {
        self.ordered.start_timed_messages(first_message_id, now);
        self.unordered.start_timed_messages(first_message_id, now);
    }

    /// The same where the numbers of each list ascend: it looks at the messages
    /// numbered so, and at the last chunk before them.
    /// Precondition: they do. `now` is in nanoseconds.
    pub(crate) fn start_latest_messages(&mut self, first_message_id: u64, now: u64)
        requires ordered { NumbersAscend self.old.ordered }
        requires unordered { NumbersAscend self.old.unordered }
        ensures { self.new ≡ start_pending first_message_id now self.old }
    {
        self.ordered.start_latest_messages(first_message_id, now);
        self.unordered.start_latest_messages(first_message_id, now);
    }

    /// The front of the partially sent message's list; with none partially sent the unordered front, else the ordered one.
    pub fn peek(&self) -> Option<&ChunkPayloadData>
        ensures { option_copied result ≡ next_pending self.now }
    {
        match self.selected {
            Some(selected) => self.list(selected.unordered).get(0),
            None => match self.unordered.get(0) {
                Some(chunk) => Some(chunk),
                None => self.ordered.get(0),
            },
        }
    }

    /// The chunk that goes after so many others.
    /// Precondition: ordered messages wait whole, but for the partially sent one, which is in front.
    pub(crate) fn peek_at(&self, index: usize) -> Option<&ChunkPayloadData>
        requires { AreWhole false (stage_of false self.now.selected) self.now.ordered }
        ensures { option_copied result ≡ slice_get (order_of self.now) index }
    {
        let Some(first) = self.ordered_first(index) else {
            return self.ordered.get(index);
        };
        let behind = index - first;
        if behind < self.unordered.len() {
            return self.unordered.get(behind);
        }
        self.ordered.get(index - self.unordered.len())
    }

    // How many ordered chunks go before the unordered ones, where they are at most `most`.
    fn ordered_first(&self, most: usize) -> Option<usize>
        requires { AreWhole false (stage_of false self.now.selected) self.now.ordered }
        ensures some { IfSome result (λ n. (n ≡ ordered_first self.now.selected self.now.ordered)
            × (n ≤ most)) }
        ensures none { IfNone result (most < ordered_first self.now.selected self.now.ordered) }
    {
        match self.selected {
            Some(selected) => {
                if selected.unordered {
                    return Some(0);
                }
                self.ordered.until_end(selected.message_id, most)
            }
            None => Some(0),
        }
    }

    /// Takes the front of the partially sent message's list; with none partially sent that of the
    /// list that `unordered` names, where `beginning_fragment` is true. Handed the flags of
    /// what a peek shows, it takes that chunk, if a message is partially sent or begins there.
    #[inline(always)]
    pub fn pop(&mut self, beginning_fragment: bool, unordered: bool) -> Option<ChunkPayloadData>
        ensures popped { result ≡ chunk_to_pop beginning_fragment unordered self.old }
        ensures rest { self.new ≡ rest_after beginning_fragment unordered self.old }
    {
        let unordered = list_to_pop(self.selected, beginning_fragment, unordered)?;
        self.pop_from(unordered)
    }

    // Takes the front of a list.
    #[inline(always)]
    fn pop_from(&mut self, unordered: bool) -> Option<ChunkPayloadData>
        ensures popped { result ≡ slice_get (list_of unordered self.old) 0 }
        ensures rest { self.new ≡ rest_of unordered self.old (list_of unordered self.old) }
    {
        if unordered {
            note_sent(&mut self.selected, true, self.unordered.get(0)?);
            return Some(self.unordered.take_front());
        }
        note_sent(&mut self.selected, false, self.ordered.get(0)?);
        Some(self.ordered.take_front())
    }

    /// The list that the flag names.
    fn list(&self, unordered: bool) -> &Line
        ensures { result.now.chunks ≡ list_of unordered self.now }
    {
        if unordered {
            &self.unordered
        } else {
            &self.ordered
        }
    }

    /// Lowers by one the stream sequence number of every ordered chunk of the stream that waits; 0 becomes 65,535. So the gap closes
    /// that a message removed wholly unsent left, where each of them was pushed after it. It takes no memory.
    pub fn compact_ordered_ssns(&mut self, stream_identifier: u16)
        ensures { self.new ≡ closed_up stream_identifier self.old }
    {
        self.lower_ordered_ssns(stream_identifier, 1);
    }

    /// The same for so many messages that were removed, in one walk. It takes no memory.
    pub(crate) fn lower_ordered_ssns(&mut self, stream_identifier: u16, by: u16)
        ensures { self.new ≡ lowered stream_identifier by self.old }
    {
        self.ordered.lower_ssns(stream_identifier, by);
    }

    /// Removes what waits of a message, the ordered chunks first, and answers its bytes and the chunk
    /// removed last. A message that is partially sent stays so, unless it is this one. It takes no memory.
    pub fn remove_message(&mut self, message_id: u64) -> (usize, Option<ChunkPayloadData>)
        ensures bytes { result.0 ≡ removed_bytes message_id self.old.ordered
            + removed_bytes message_id self.old.unordered }
        ensures left { total_bytes self.new + result.0 ≡ total_bytes self.old }
        ensures last { result.1 ≡ last_removed message_id self.old }
        ensures rest { self.new ≡ without message_id self.old }
    {
        let (ordered_bytes, ordered_last) = self.ordered.remove_message(message_id);
        let (unordered_bytes, unordered_last) = self.unordered.remove_message(message_id);
        self.selected = selected_without(self.selected, message_id);
        (
            ordered_bytes + unordered_bytes,
            unordered_last.or(ordered_last),
        )
    }

    /// As `remove_message`, where what waits of the message stands in front: it looks at that, and at the next chunk of each list.
    /// Precondition: in neither list does a chunk of the message stand behind one of another.
    #[inline(always)]
    pub(crate) fn pop_message(&mut self, message_id: u64) -> (usize, Option<ChunkPayloadData>)
        requires ordered { stand_in_front message_id self.old.ordered ≡ true }
        requires unordered { stand_in_front message_id self.old.unordered ≡ true }
        ensures left { total_bytes self.new + result.0 ≡ total_bytes self.old }
        ensures last { result.1 ≡ last_removed message_id self.old }
        ensures rest { self.new ≡ without message_id self.old }
    {
        let (ordered, last_ordered) = self.ordered.pop_message(message_id);
        let (unordered, last_unordered) = self.unordered.pop_message(message_id);
        self.selected = selected_without(self.selected, message_id);
        (ordered + unordered, last_unordered.or(last_ordered))
    }

    /// The bytes of user data of all that waits.
    pub fn get_num_bytes(&self) -> usize
        ensures { result ≡ total_bytes self.now }
    {
        self.ordered.get_num_bytes() + self.unordered.get_num_bytes()
    }

    /// How many chunks wait.
    pub fn len(&self) -> usize
        ensures { result ≡ chunk_count self.now }
    {
        self.ordered.len() + self.unordered.len()
    }

    /// Whether none waits.
    pub fn is_empty(&self) -> bool
        ensures { result ≡ (chunk_count self.now == 0) }
    {
        self.len() == 0
    }

    /// Whether a chunk of the message waits.
    pub fn contains_message(&self, message_id: u64) -> bool
        ensures { result ≡ list_any (is_of message_id) self.now.unordered
            || list_any (is_of message_id) self.now.ordered }
    {
        self.unordered.contains_message(message_id) || self.ordered.contains_message(message_id)
    }

    /// Whether a chunk of the stream waits.
    pub fn contains_stream(&self, stream_identifier: u16) -> bool
        ensures { result ≡ list_any (is_on stream_identifier) self.now.unordered
            || list_any (is_on stream_identifier) self.now.ordered }
    {
        self.unordered.contains_stream(stream_identifier)
            || self.ordered.contains_stream(stream_identifier)
    }

    /// From here on so many pushes of ordered and of unordered chunks take no memory.
    /// Refuses only for memory, and the queue is as it was then.
    pub fn reserve(&mut self, ordered: usize, unordered: usize) -> Result<()>
        ensures ok { OnOk result (self.new ≡ with_room self.old ordered unordered) }
        ensures err { OnErr result (self.new ≡ self.old) }
        ensures memory { IsOkUnless result ErrOutOfMemory }
        ensures succeeds { ordered ≤ self.old.ordered_room
            → unordered ≤ self.old.unordered_room → IsOk result }
    {
        let before = self.ordered.room();
        self.ordered.reserve(ordered)?;
        if let Err(refused) = self.unordered.reserve(unordered) {
            self.ordered.keep_room(before);
            return Err(refused);
        }
        Ok(())
    }
}

// Whether a pop takes from the unordered list, where it takes at all.
fn list_to_pop(
    selected: Option<Selected>,
    beginning_fragment: bool,
    unordered: bool,
) -> Option<bool>
    ensures { result ≡ list_to_pop selected beginning_fragment unordered }
{
    match selected {
        Some(selected) => Some(selected.unordered),
        None => {
            if beginning_fragment {
                Some(unordered)
            } else {
                None
            }
        }
    }
}

// Notes which message is partially sent once a chunk of a list leaves. It writes only where that changes.
fn note_sent(selected: &mut Option<Selected>, unordered: bool, chunk: &ChunkPayloadData)
    ensures { selected.new ≡ selected_after selected.old unordered chunk.now }
{
    match *selected {
        Some(partial) => {
            if chunk.ending_fragment && chunk.message_id == partial.message_id {
                *selected = None;
            }
        }
        None => {
            if !chunk.ending_fragment {
                *selected = Some(Selected {
                    message_id: chunk.message_id,
                    unordered,
                });
            }
        }
    }
}

// The partially sent message after one was removed.
fn selected_without(selected: Option<Selected>, message_id: u64) -> Option<Selected>
    ensures { result ≡ selected_without message_id selected }
{
    match selected {
        Some(selected) => {
            if selected.message_id == message_id {
                return None;
            }
            Some(selected)
        }
        None => None,
    }
}
