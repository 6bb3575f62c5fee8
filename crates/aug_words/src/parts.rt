//! The parts of a table, and how many readers are out in each.
ghost use Rattle.std.specs.Prelude.{◌≡◌, ◌≢◌, ◌⊎◌, ◌+◌, ◌-◌, ◌^◌, ◌<◌, ◌≤◌, ℕ, min, true, false, length, replicate, slice_index, slice_set, IfOk};

use std::alloc::{AllocError, Global};

/// The parts of a table, each by its number.
#[derive(Drop)]
pub(crate) struct Parts {
    // The one at work, and another, which is laid out for the next era.
    pub(crate) own: usize,
    pub(crate) next: usize,
    // How many readers are out in each. The greatest number stands for that many and more, which are not counted.
    pub(crate) out: Vec<u32>,
}

impl Parts {
    /// So many parts, in which nobody reads. The first is at work, and the second is laid out next, if there is more than one.
    pub(crate) fn new(alloc: Global, count: usize) -> Result<Parts, AllocError>
        requires { 0 < count }
        ensures own { IfOk result (λ p. p.own ≡ 0) }
        ensures next { IfOk result (λ p. p.next ≡ min 1 (count - 1)) }
        ensures out { IfOk result (λ p. p.out.items ≡ replicate count 0) }
    {
        Ok(Parts {
            own: 0,
            next: (count - 1).min(1),
            out: Vec::from_elem(alloc, 0, count)?,
        })
    }

    /// Counts so many more readers of the part at work.
    pub(crate) fn lend(&mut self, more: u32)
        requires { self.old.own < length self.old.out.items }
        ensures own { self.new.own ≡ self.old.own }
        ensures next { self.new.next ≡ self.old.next }
        ensures out { self.new.out.items ≡ slice_set self.old.out.items self.old.own (min (slice_index self.old.out.items self.old.own + more) (2 ^ 32 - 1)) }
    {
        self.out[self.own] = self.out[self.own].saturating_add(more);
    }

    /// Counts one reader of a part less. False if none is out there, or more than are counted.
    pub(crate) fn take(&mut self, part: usize) -> bool
        requires { part < length self.old.out.items }
        ensures own { self.new.own ≡ self.old.own }
        ensures next { self.new.next ≡ self.old.next }
        ensures taken { result ≡ true → (0 < slice_index self.old.out.items part) × (slice_index self.old.out.items part < 2 ^ 32 - 1) × (self.new.out.items ≡ slice_set self.old.out.items part (slice_index self.old.out.items part - 1)) }
        ensures kept { result ≡ false → (self.new.out.items ≡ self.old.out.items) × ((slice_index self.old.out.items part ≡ 0) ⊎ (slice_index self.old.out.items part ≡ 2 ^ 32 - 1)) }
    {
        let count = self.out[part];
        if count == 0 || count == u32::MAX {
            return false;
        }
        self.out[part] = count - 1;
        true
    }

    /// Whether nobody reads in some part beside the one at work. Then the part that is laid out next is one: the same, if nobody reads there.
    pub(crate) fn turn(&mut self) -> bool
        requires own { self.old.own < length self.old.out.items }
        requires next { (self.old.next < length self.old.out.items) × (self.old.next ≢ self.old.own) }
        ensures own { self.new.own ≡ self.old.own }
        ensures out { self.new.out.items ≡ self.old.out.items }
        ensures next { (self.new.next < length self.old.out.items) × (self.new.next ≢ self.old.own) }
        ensures free { result ≡ true → slice_index self.old.out.items self.new.next ≡ 0 }
        ensures none { result ≡ false → (part : ℕ) → part < length self.old.out.items → part ≢ self.old.own → slice_index self.old.out.items part ≢ 0 }
        ensures same { result ≡ false → self.new.next ≡ self.old.next }
    {
        if self.out[self.next] == 0 {
            return true;
        }
        for part in 0..self.out.len() {
            if part != self.own && self.out[part] == 0 {
                self.next = part;
                return true;
            }
        }
        false
    }

    /// The next era begins: the part that was laid out is at work, and the one that was lies beside it.
    pub(crate) fn swap(&mut self)
        ensures own { self.new.own ≡ self.old.next }
        ensures next { self.new.next ≡ self.old.own }
        ensures out { self.new.out.items ≡ self.old.out.items }
    {
        (self.own, self.next) = (self.next, self.own);
    }
}
