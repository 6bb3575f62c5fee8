//! How far the next opening is laid out.
ghost use Rattle.std.specs.Prelude.{◌≡◌, ◌≢◌, ◌*◌, ◌^◌, ◌<◌, None, true, false, length, ℕ, slice_index};

use crate::parts::Parts;

/// What is laid out of the part of a table beside the one at work.
#[derive(Drop)]
pub(crate) struct Draft {
    // The first word of that part.
    pub(crate) base: usize,
    // For each inner node one more than the number of the record as which it is laid out, with all below it, or 0.
    pub(crate) shown: Vec<u64>,
    // The key at which the last piece stopped, or 0 if it came to the end.
    from: usize,
    // How many nodes this piece has left, unless it has no bound, and the key at which it stops then.
    pub(crate) left: Option<u32>,
    stop: usize,
}

impl Draft {
    /// Nothing is laid out of the part that begins at this word. `shown` has a 0 for each node.
    pub(crate) fn new(base: usize, shown: Vec<u64>) -> Draft
        ensures base { result.base ≡ base }
        ensures shown { result.shown ≡ shown }
    {
        Draft {
            base,
            shown,
            from: 0,
            left: None,
            stop: 0,
        }
    }

    /// From now on it is that of another part, of which nothing is laid out.
    pub(crate) fn turn(&mut self, base: usize)
        ensures base { self.new.base ≡ base }
        ensures noted { length self.new.shown.items ≡ length self.old.shown.items }
        ensures none { (slot : ℕ) → slice_index self.new.shown.items slot ≡ 0 }
    {
        for slot in 0..self.shown.len() {
            self.shown[slot] = 0;
        }
        self.base = base;
        self.from = 0;
    }

    /// Whether nobody reads in some part beside the one at work. Then it is that of such a part: of the same, if nobody reads there.
    pub(crate) fn aim(&mut self, parts: &mut Parts, size: usize) -> bool
        requires own { parts.old.own < length parts.old.out.items }
        requires next { (parts.old.next < length parts.old.out.items) × (parts.old.next ≢ parts.old.own) }
        requires small { length parts.old.out.items * size < 2 ^ 60 }
        ensures own { parts.new.own ≡ parts.old.own }
        ensures out { parts.new.out.items ≡ parts.old.out.items }
        ensures next { (parts.new.next < length parts.old.out.items) × (parts.new.next ≢ parts.old.own) }
        ensures free { result ≡ true → slice_index parts.old.out.items parts.new.next ≡ 0 }
        ensures none { result ≡ false → (part : ℕ) → part < length parts.old.out.items → part ≢ parts.old.own → slice_index parts.old.out.items part ≢ 0 }
        ensures same { parts.new.next ≡ parts.old.next → (self.new.base ≡ self.old.base) × (self.new.shown.items ≡ self.old.shown.items) }
        ensures turned { parts.new.next ≢ parts.old.next → (self.new.base ≡ parts.new.next * size) × (length self.new.shown.items ≡ length self.old.shown.items) × ((slot : ℕ) → slice_index self.new.shown.items slot ≡ 0) }
    {
        let next = parts.next;
        let free = parts.turn();
        if parts.next != next {
            self.turn(parts.next * size);
        }
        free
    }

    /// Begins a piece of so many nodes.
    pub(crate) fn begin(&mut self, nodes: u32)
        ensures base { self.new.base ≡ self.old.base }
        ensures shown { self.new.shown ≡ self.old.shown }
    {
        self.left = Some(nodes);
        self.stop = usize::MAX;
    }

    /// Ends it. The next one goes on where it stopped.
    pub(crate) fn end(&mut self)
        ensures base { self.new.base ≡ self.old.base }
        ensures shown { self.new.shown ≡ self.old.shown }
    {
        self.from = if self.stop == usize::MAX {
            0
        } else {
            self.stop
        };
        self.left = None;
    }

    /// Whether this piece passes over the node that has so many keys below it, from this one on: one that was before it, or that comes after it.
    pub(crate) fn passes(&mut self, first: usize, width: usize) -> bool
        ensures base { self.new.base ≡ self.old.base }
        ensures shown { self.new.shown ≡ self.old.shown }
        ensures unbounded { self.old.left ≡ None → (result ≡ false) × (self.new.left ≡ None) }
    {
        let Some(left) = self.left else {
            return false;
        };
        if first.wrapping_add(width) <= self.from {
            return true;
        }
        if left == 0 {
            self.stop = self.stop.min(first);
            return true;
        }
        self.left = Some(left - 1);
        false
    }
}
