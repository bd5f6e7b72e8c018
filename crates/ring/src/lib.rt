// A ring over a lent slice of n elements, n from 0: it keeps the last n that were pushed.
// Its memory is lent, since the card it runs on has no heap. It serves bytes in a device space's record and cycle answers
// in a log. It uses no other crate; specs/Kept.antt says what it keeps.
#![tactic(auto)]

ghost use Rattle.std.specs.Prelude.{◌≡◌, ◌<◌, ◌≤◌, [], ◌∷◌, ◌++◌, length, slice_set};
ghost use Rattle.ring.specs.Kept.{last, kept, older, newer, depth, slots_with};
ghost use Rattle.std.specs.List.{slice_get};

#[derive(Drop)]
pub struct Ring<'a, T> {
    // the same slice through every call, as each call says: no invariant can, since it is a fact of two states
    slots: &'a mut [T],
    // where the next element goes; at the slice's end it goes to the start
    next: usize,
    // whether it has turned, so that every slot holds a pushed element: a flag, as an enum would carry `next` in each case
    wrapped: bool,
}

impl<'a, T: Copy> Ring<'a, T> {
    // An empty ring: what the slice held is not kept, and not yet overwritten.
    pub fn new(slots: &'a mut [T]) -> Ring<'a, T>
        ensures items { kept result ≡ [] }
        ensures slice { result.slots.now ≡ slots.old }
        ensures lent { result.slots.ghost_name ≡ slots.entry.ghost_name }
    {
        Ring {
            slots,
            next: 0,
            wrapped: false,
        }
    }

    // Keeps `x`, and lets the oldest go where there is no room for both.
    pub fn push(&mut self, x: T)
        ensures items { kept self.new ≡ last (depth self.old) (kept self.old ++ x ∷ []) }
        ensures slice { self.new.slots.now ≡ slots_with self.old x }
        ensures lent { self.new.slots.ghost_name ≡ self.old.slots.ghost_name }
    {
        if self.next >= self.slots.len() {
            self.turn();
        }
        self.put(x);
    }

    // What it keeps, in two parts, each with its oldest first: those of before the last turn, then those pushed since.
    pub fn as_slices(&self) -> (&[T], &[T])
        ensures older { result.0.now ≡ older self.now }
        ensures newer { result.1.now ≡ newer self.now }
    {
        let (newer, older) = self.slots.split_at(self.next.min(self.slots.len()));
        if self.wrapped {
            (older, newer)
        } else {
            (&[], newer)
        }
    }

    // How many elements it keeps.
    pub fn len(&self) -> usize
        ensures { result ≡ length (kept self.now) }
    {
        let (older, newer) = self.as_slices();
        older.len() + newer.len()
    }

    // The i-th oldest, from 0, or nothing.
    pub fn get(&self, i: usize) -> Option<T>
        ensures { result ≡ slice_get (kept self.now) i }
    {
        let (older, newer) = self.as_slices();
        joined(older, newer, i)
    }

    // From the slice's end back to its start: every slot now holds a pushed element.
    fn turn(&mut self)
        requires { depth self.old ≤ self.old.next }
        ensures items { kept self.new ≡ kept self.old }
        ensures start { self.new.next ≡ 0 }
        ensures slice { self.new.slots.now ≡ self.old.slots.now }
        ensures lent { self.new.slots.ghost_name ≡ self.old.slots.ghost_name }
    {
        self.next = 0;
        self.wrapped = true;
    }

    // Puts `x` at the next place, if there is a place at all.
    fn put(&mut self, x: T)
        requires { 0 < depth self.old → self.old.next < depth self.old }
        ensures items { kept self.new ≡ last (depth self.old) (kept self.old ++ x ∷ []) }
        ensures slice { self.new.slots.now ≡ slice_set self.old.slots.now self.old.next x }
        ensures lent { self.new.slots.ghost_name ≡ self.old.slots.ghost_name }
    {
        // by index: tried with `get_mut`, after which the proof knows no element of a slice, and does not close
        let i = self.next;
        if i < self.slots.len() {
            self.slots[i] = x;
            self.next = i + 1;
        }
    }
}

// The i-th element of two slices, one behind the other.
fn joined<T: Copy>(front: &[T], back: &[T], i: usize) -> Option<T>
    ensures { result ≡ slice_get (front.now ++ back.now) i }
{
    match i.checked_sub(front.len()) {
        None => front.get(i).copied(),
        Some(behind) => back.get(behind).copied(),
    }
}
