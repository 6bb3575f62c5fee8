//! The handle of a trie or of a user as C holds it.
ghost use Rattle.std.specs.Prelude.{◌≡◌, ◌≢◌, ◌↔◌, Some, None, IsSome, IfSome, IfNone, true};
ghost use Rattle.aug_c.specs.Marks.{IsMark};
ghost use Rattle.aug_c.specs.Holding.{Content};
ghost use Rattle.aug_c.specs.inside.ContentCode.{content_coded};

use crate::raw_box::RawBox;
use crate::state::HandleState;
use std::alloc::Global;
use std::marker::Model;

// What the handle of a trie that is open begins with, and that of a user, so that another piece of memory is hardly taken for one.
pub(crate) const TRIE: u64 = 0x6569_7274_5f67_7561;

pub(crate) const USER: u64 = 0x7265_7375_5f67_7561;

/// What a handle owns.
#[derive(Drop)]
pub struct HandleSlot {
    // Room on both sides, so that nothing which another thread uses lies on the same cache lines.
    before: [u64; 16],
    pub(crate) state: HandleState,
    after: [u64; 16],
}

impl HandleSlot {
    ghost use Rattle.aug_c.specs.declared.state.HandleState.TheVariants.{Closed};

    /// A slot that stands for nothing.
    pub(crate) fn closed() -> HandleSlot
        ensures { result.state ≡ Closed }
    {
        HandleSlot {
            before: [0; 16],
            state: HandleState::Closed,
            after: [0; 16],
        }
    }
}

/// A box as C holds it.
#[repr(C)]
#[derive(Drop)]
pub struct HeldBox {
    at: *mut u8,
    pub(crate) ghost value: { Content } by { content_coded },
}

impl Model for HeldBox {
    ghost use Rattle.aug_c.specs.Holding.{held_owns};

    ghost also_owns = { λ h. held_owns h.value h.at };
}

/// A handle. C has it zeroed before it is opened, and gives it to one call at a time. Only opening and closing write it.
#[repr(C)]
#[derive(Drop)]
pub struct RawHandle {
    pub(crate) tag: u64,
    pub(crate) held: HeldBox,
    pub(crate) ghost agrees: { IsMark tag ↔ IsSome held.value },
}

impl HeldBox {
    ghost use Rattle.std.specs.Borrow.{sem};
    ghost use Rattle.aug_c.specs.inside.SlotLends.{LendsSlot};

    fn empty() -> HeldBox
        ensures { result.value ≡ None }
    {
        HeldBox {
            at: std::ptr::null_mut(),
        }
    }

    fn of(b: RawBox<HandleSlot, Global>) -> HeldBox
        ensures { result.value ≡ Some b.value }
    {
        let RawBox { at, alloc: _ } = b;
        HeldBox { at: at as *mut u8 }
    }

    fn into_raw_box(self, alloc: Global) -> RawBox<HandleSlot, Global>
        requires { IsSome self.value }
        ensures { self.value ≡ Some result.value }
    {
        let HeldBox { at } = self;
        let at = at as *mut HandleSlot;
        RawBox { at, alloc }
    }

    // Lends what the box holds, where it lies.
    #[inline(always)]
    pub(crate) fn as_slot(&mut self) -> &mut HandleSlot
        requires { IsSome self.old.value }
        ensures* writes_back { sem 𝓛 (LendsSlot self.entry result) }
        ensures value { self.old.value ≡ Some result.now }
    {
        unsafe { &mut *(self.at as *mut HandleSlot) }
    }
}

// What a call answers that does this with a handle's user. On any other handle it does nothing.
macro_rules! on_user {
    ($user:ident, $held:ident => $call:expr) => {{
        if !$user.is_open() {
            return $crate::codes::CLOSED;
        }
        match &mut $user.held.as_slot().state {
            $crate::state::HandleState::User($held) => $call,
            _ => $crate::codes::CLOSED,
        }
    }};
}

// The same with the look of a handle's user.
macro_rules! on_look {
    ($user:ident, $look:ident => $call:expr) => {{
        if !$user.is_open() {
            return $crate::codes::CLOSED;
        }
        match &mut $user.held.as_slot().state {
            $crate::state::HandleState::User(held) => match &mut held.look {
                Some($look) => $call,
                None => $crate::codes::NOT_LOOKING,
            },
            _ => $crate::codes::CLOSED,
        }
    }};
}

pub(crate) use on_look;
pub(crate) use on_user;

impl RawHandle {
    /// Whether it is open.
    #[inline(always)]
    pub(crate) fn is_open(&self) -> bool
        ensures { (result ≡ true) ↔ IsSome self.now.held.value }
    {
        self.tag == USER || self.tag == TRIE
    }

    /// Takes out what it owns if it begins with a mark, and leaves it closed. All other memory stays as it is.
    #[inline(always)]
    pub(crate) fn take(&mut self, mark: u64, alloc: Global) -> Option<Box<HandleSlot, Global>>
        requires { IsMark mark }
        ensures some { IfSome result (λ slot. (self.old.tag ≡ mark) × (self.old.held.value ≡ Some slot.value) × (self.new.held.value ≡ None)) }
        ensures none { IfNone result ((self.old.tag ≢ mark) × (self.new ≡ self.old)) }
    {
        if self.tag != mark {
            return None;
        }
        let RawHandle { tag: _, held } = std::mem::replace(
            self,
            RawHandle {
                tag: 0,
                held: HeldBox::empty(),
            },
        );
        Some(held.into_raw_box(alloc).into_box())
    }

    /// Holds a box, which it owns from then on.
    #[inline(always)]
    pub(crate) fn hold(&mut self, mark: u64, slot: Box<HandleSlot, Global>)
        requires { IsMark mark }
        ensures mark { self.new.tag ≡ mark }
        ensures value { self.new.held.value ≡ Some slot.value }
    {
        *self = RawHandle {
            tag: mark,
            held: HeldBox::of(RawBox::of(slot)),
        };
    }
}
