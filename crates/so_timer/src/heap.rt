//! A heap of deadlines by (deadline, number), and beside it the place in the heap of each number.
//!
//! These functions work on the two tables while they don't agree. `places` is indexed by the number of
//! the timer.
ghost use Rattle.std.specs.Prelude.{◌≡◌, ◌≢◌, ℕ, ◌+◌, ◌*◌, ◌-◌, ◌/◌, ◌<◌, ◌≤◌, ◌^◌, ◌↔◌, IsTrue, nat_lt, if◌then◌else◌, IsNone, IfSome, length, take, slice_set, vec_len, vec_capacity, [], ◌∷◌, ◌++◌};
ghost use Rattle.so_timer.specs.Heap.{rank, rank_at, due_at, IsHeap, IsHeapBut, IsAbove, IsBelow, IsPlaced, IsMoved, IsTakenOut, with_exchanged, later_due, IsEarliest};
ghost use Rattle.so_timer.specs.Timers.{lesser};

use so_ids::TimerId;

/// An armed timer, as the heap has it.
#[derive(Clone, Copy, PartialEq, Eq)]
pub(crate) struct Due {
    pub deadline: u64,
    pub timer: TimerId,
}

/// Tells whether the first is due before the second.
fn is_before(a: Due, b: Due) -> bool
    ensures { IsTrue result ↔ (rank a < rank b) }
{
    a.deadline < b.deadline || (a.deadline == b.deadline && a.timer.0 < b.timer.0)
}

/// The same of two places of the heap.
fn is_less(heap: &[Due], i: usize, j: usize) -> bool
    requires i_in { i < length heap.now }
    requires j_in { j < length heap.now }
    ensures { IsTrue result ↔ (rank_at heap.now i < rank_at heap.now j) }
{
    is_before(heap[i], heap[j])
}

/// Exchanges the elements at two places.
fn exchange(heap: &mut [Due], places: &mut [u32], i: usize, j: usize)
    requires differ { i ≢ j }
    requires i_in { i < length heap.old }
    requires j_in { j < length heap.old }
    requires few { length heap.old ≤ 2 ^ 32 }
    requires placed { IsPlaced heap.old places.old }
    ensures heap { heap.new ≡ with_exchanged heap.old i j }
    ensures placed { IsPlaced heap.new places.new }
    ensures table { length places.new ≡ length places.old }
{
    let a = heap[i];
    let b = heap[j];
    heap[i] = b;
    heap[j] = a;
    places[b.timer.0 as usize] = i as u32;
    places[a.timer.0 as usize] = j as u32;
}

/// Moves an element up as far as it belongs, and answers where it then stands.
fn sift_up(heap: &mut [Due], places: &mut [u32], start: usize) -> usize
    requires within { start < length heap.old }
    requires few { length heap.old ≤ 2 ^ 32 }
    requires but { IsHeapBut (rank_at heap.old) (length heap.old) start }
    requires placed { IsPlaced heap.old places.old }
    ensures within { result < length heap.new }
    ensures but { IsHeapBut (rank_at heap.new) (length heap.new) result }
    ensures above { IsAbove (rank_at heap.new) result }
    ensures placed { IsPlaced heap.new places.new }
    ensures moved { IsMoved heap.old heap.new }
{
    let mut at = start;
    while at > 0 {
        let above = (at - 1) / 2;
        if is_less(heap, at, above) {
            exchange(heap, places, at, above);
            at = above;
        } else {
            return at;
        }
    }
    at
}

/// The lesser of the elements below a place, if there is one.
fn lesser_below(heap: &[Due], at: usize) -> Option<usize>
    requires within { at < length heap.now }
    requires few { length heap.now ≤ 2 ^ 32 }
    ensures none { IsNone result → length heap.now ≤ 2 * at + 1 }
    ensures below { IfSome result (λ c. IsBelow at c × (c < length heap.now)) }
    ensures least { IfSome result (λ c. (k : ℕ) → IsBelow at k → k < length heap.now
        → rank_at heap.now c ≤ rank_at heap.now k) }
{
    let left = 2 * at + 1;
    if left >= heap.len() {
        return None;
    }
    let right = left + 1;
    if right < heap.len() && is_less(heap, right, left) {
        Some(right)
    } else {
        Some(left)
    }
}

/// Moves an element down as far as it belongs.
fn sift_down(heap: &mut [Due], places: &mut [u32], start: usize)
    requires within { start < length heap.old }
    requires few { length heap.old ≤ 2 ^ 32 }
    requires but { IsHeapBut (rank_at heap.old) (length heap.old) start }
    requires above { IsAbove (rank_at heap.old) start }
    requires placed { IsPlaced heap.old places.old }
    ensures order { IsHeap (rank_at heap.new) (length heap.new) }
    ensures placed { IsPlaced heap.new places.new }
    ensures moved { IsMoved heap.old heap.new }
{
    let mut at = start;
    while let Some(below) = lesser_below(heap, at) {
        if is_less(heap, below, at) {
            exchange(heap, places, at, below);
            at = below;
        } else {
            return;
        }
    }
}

/// Puts the heap in order again, where it is in order but for one place.
pub(crate) fn settle(heap: &mut [Due], places: &mut [u32], at: usize)
    requires within { at < length heap.old }
    requires few { length heap.old ≤ 2 ^ 32 }
    requires but { IsHeapBut (rank_at heap.old) (length heap.old) at }
    requires placed { IsPlaced heap.old places.old }
    ensures order { IsHeap (rank_at heap.new) (length heap.new) }
    ensures placed { IsPlaced heap.new places.new }
    ensures moved { IsMoved heap.old heap.new }
{
    let now = sift_up(heap, places, at);
    sift_down(heap, places, now);
}

/// Adds an element with the next number.
pub(crate) fn add(heap: &mut Vec<Due>, places: &mut Vec<u32>, due: Due)
    requires fresh { due.timer.0 ≡ length places.old.items }
    requires heap_room { vec_len heap.old < vec_capacity heap.old }
    requires places_room { vec_len places.old < vec_capacity places.old }
    requires few { vec_len heap.old < 2 ^ 32 }
    requires order { IsHeap (rank_at heap.old.items) (length heap.old.items) }
    requires placed { IsPlaced heap.old.items places.old.items }
    ensures order { IsHeap (rank_at heap.new.items) (length heap.new.items) }
    ensures placed { IsPlaced heap.new.items places.new.items }
    ensures added { IsMoved (heap.old.items ++ due ∷ []) heap.new.items }
    ensures table { length places.new.items ≡ length places.old.items + 1 }
    ensures heap_capacity { vec_capacity heap.new ≡ vec_capacity heap.old }
    ensures places_capacity { vec_capacity places.new ≡ vec_capacity places.old }
{
    let at = heap.len();
    places.push_reserved(at as u32);
    heap.push_reserved(due);
    settle(heap, places, at);
}

/// Puts the last element at a place, in place of the one there.
fn fill(heap: &mut Vec<Due>, places: &mut Vec<u32>, at: usize)
    requires within { at + 1 < vec_len heap.old }
    requires few { vec_len heap.old ≤ 2 ^ 32 }
    requires placed { IsPlaced heap.old.items places.old.items }
    ensures heap { heap.new.items ≡ take (vec_len heap.old - 1)
        (with_exchanged heap.old.items at (vec_len heap.old - 1)) }
    ensures len { vec_len heap.new + 1 ≡ vec_len heap.old }
    ensures placed { IsPlaced heap.new.items places.new.items }
    ensures table { length places.new.items ≡ length places.old.items }
    ensures heap_capacity { vec_capacity heap.new ≡ vec_capacity heap.old }
    ensures places_capacity { vec_capacity places.new ≡ vec_capacity places.old }
{
    let last = heap.len() - 1;
    exchange(heap, places, at, last);
    heap.truncate(last);
}

/// Takes out the element at a place.
pub(crate) fn take_out(heap: &mut Vec<Due>, places: &mut Vec<u32>, at: usize)
    requires within { at < vec_len heap.old }
    requires few { vec_len heap.old ≤ 2 ^ 32 }
    requires order { IsHeap (rank_at heap.old.items) (length heap.old.items) }
    requires placed { IsPlaced heap.old.items places.old.items }
    ensures order { IsHeap (rank_at heap.new.items) (length heap.new.items) }
    ensures placed { IsPlaced heap.new.items places.new.items }
    ensures taken { IsTakenOut heap.old.items heap.new.items at }
    ensures table { length places.new.items ≡ length places.old.items }
    ensures heap_capacity { vec_capacity heap.new ≡ vec_capacity heap.old }
    ensures places_capacity { vec_capacity places.new ≡ vec_capacity places.old }
{
    let last = heap.len() - 1;
    if at == last {
        heap.truncate(last);
    } else {
        fill(heap, places, at);
        settle(heap, places, at);
    }
}

/// Gives the element at a place another deadline.
pub(crate) fn change(heap: &mut Vec<Due>, places: &mut Vec<u32>, at: usize, deadline: u64)
    requires within { at < vec_len heap.old }
    requires few { vec_len heap.old ≤ 2 ^ 32 }
    requires order { IsHeap (rank_at heap.old.items) (length heap.old.items) }
    requires placed { IsPlaced heap.old.items places.old.items }
    ensures order { IsHeap (rank_at heap.new.items) (length heap.new.items) }
    ensures placed { IsPlaced heap.new.items places.new.items }
    ensures changed { IsMoved (slice_set heap.old.items at
        (later_due deadline (due_at heap.old.items at))) heap.new.items }
    ensures table { length places.new.items ≡ length places.old.items }
    ensures heap_capacity { vec_capacity heap.new ≡ vec_capacity heap.old }
    ensures places_capacity { vec_capacity places.new ≡ vec_capacity places.old }
{
    let timer = heap[at].timer;
    heap[at] = Due { deadline, timer };
    settle(heap, places, at);
}

/// The least deadline above a time. It mostly stands first.
pub(crate) fn earliest(heap: &[Due], after: u64) -> Option<u64>
    requires order { IsHeap (rank_at heap.now) (length heap.now) }
    requires few { (i : ℕ) → i < length heap.now → (due_at heap.now i).timer.0 < 2 ^ 32 }
    ensures { IsEarliest heap.now (length heap.now) after result }
{
    if heap.len() == 0 {
        return None;
    }
    let first = heap[0];
    if after < first.deadline {
        Some(first.deadline)
    } else {
        scanned(heap, after)
    }
}

/// The least deadline above a time, of all.
fn scanned(heap: &[Due], after: u64) -> Option<u64>
    ensures { IsEarliest heap.now (length heap.now) after result }
{
    let mut best: Option<u64> = None;
    for due in heap {
        best = nearer(best, due.deadline, after);
    }
    best
}

/// The lesser of the best so far and a deadline that is above the time.
fn nearer(best: Option<u64>, deadline: u64, after: u64) -> Option<u64>
    ensures { result ≡ (if nat_lt after deadline then lesser deadline best else best) }
{
    if deadline <= after {
        return best;
    }
    match best {
        None => Some(deadline),
        Some(found) => Some(deadline.min(found)),
    }
}
