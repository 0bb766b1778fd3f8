//! Room that a list gives back.

ghost use Rattle.std.specs.Prelude.{◌≡◌, ◌*◌, ◌≤◌, [], length};
ghost use Rattle.std.specs.VecDeque.{deque_capacity};

use std::collections::VecDeque;

// For how many a list keeps room in any case, so that it neither takes nor gives back memory for the messages of a few datagrams.
const FEW: usize = 16;

/// Gives back room where a list has it for more than `FEW`, and at most a quarter of it is used: all where nothing is left; else all
/// but that for twice what is left, or for `FEW`. By no clause each that is left moves three times at most, at least so many have left
/// since the room last changed, and a list for which the allocator has no smaller block keeps its room.
pub(crate) fn give_back<T>(list: &mut VecDeque<T>)
    ensures items { list.new.items ≡ list.old.items }
    ensures room { deque_capacity list.new ≤ deque_capacity list.old }
    ensures empty { list.old.items ≡ [] → deque_capacity list.new ≤ 16 }
{
    let room = list.capacity();
    if room <= FEW || room / 4 < list.len() {
        return;
    }
    shrink(list);
}

// The same, where that is so. It stands apart, so that what takes one of few out stays small.
#[cold]
#[inline(never)]
fn shrink<T>(list: &mut VecDeque<T>)
    requires { length list.old.items * 4 ≤ deque_capacity list.old }
    ensures items { list.new.items ≡ list.old.items }
    ensures room { deque_capacity list.new ≤ deque_capacity list.old }
    ensures empty { list.old.items ≡ [] → deque_capacity list.new ≡ 0 }
{
    if list.is_empty() {
        list.shrink_to_fit();
        return;
    }
    list.shrink_to(FEW.max(list.len() * 2));
}
