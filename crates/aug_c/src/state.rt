//! What the handles stand for.
ghost use Rattle.std.specs.Prelude.{◌≡◌, None};
ghost use Rattle.aug_c.specs.UserCalls.{EndsLook, TakesLook, TakesNewer};
ghost use Rattle.aug_c.specs.inside.Refusals.{look_code};

use crate::codes::{AGAIN, LOOKING, NOT_LOOKING};
use crate::refusal::CallRefusal;
use aug_live::{Busy, Handle, Live, LiveError, Look, TryError};
use aug_monoid::{Extent, Sum};
use std::marker::Model;

/// A trie of the library: it sums the weights, and knows the least and the greatest key.
pub type SummedTrie = Live<Sum, Extent>;

/// The access of a user to it.
pub type SummedAccess = Handle<Sum, Extent>;

/// A look of a user.
pub type SummedLook = Look<Sum, Extent>;

/// A trie, with the accesses that no user was given yet.
#[derive(Drop)]
pub struct Opened {
    pub(crate) live: SummedTrie,
    pub(crate) spare: Vec<SummedAccess>,
}

/// A user: its access, and its look, if it has one.
#[derive(Drop)]
pub struct User {
    pub(crate) access: SummedAccess,
    pub(crate) look: Option<SummedLook>,
}

impl Model for User {
    ghost use Rattle.std.specs.Prelude.{IfSome};
    ghost use Rattle.aug_live.specs.LiveHandles.{IsLookOf};
    ghost use Rattle.aug_c.specs.Users.{UserFacts};

    ghost Value = { UserFacts };

    ghost view = { λ u. record { access = u.access; look = u.look } };

    // It is a look of this access.
    ghost invariant = { λ u. IfSome u.look (λ l. IsLookOf u.access l) };
}

/// What a handle stands for.
#[derive(Drop)]
pub enum HandleState {
    /// Nothing.
    Closed,

    /// A trie.
    Trie(Opened),

    /// A user.
    User(User),
}

// The code of why a user that has no look was given none. A lock that has as many owners as can be counted has fewer again, and a slot of which no look of this
// user has what lies there is full again.
fn look_refusal(cause: TryError<Busy>) -> i64
    ensures { result ≡ look_code cause }
{
    match cause {
        TryError::Refused(LiveError::Looking(_) | LiveError::TooMany) => AGAIN,
        cause => CallRefusal::of(cause).code(),
    }
}

impl User {
    /// A user that has no look.
    pub(crate) fn of(access: SummedAccess) -> User
        ensures { result ≡ record { access = access; look = None } }
    {
        User { access, look: None }
    }

    /// Takes a look, unless it has one. Answers what the call on its handle does.
    #[inline(always)]
    pub(crate) fn try_look(&mut self) -> i64
        ensures { TakesLook self.old.access self.old.look self.new result }
    {
        if self.look.is_some() {
            return LOOKING;
        }
        match self.access.try_look() {
            Ok(look) => {
                self.look = Some(look);
                0
            }
            Err(cause) => look_refusal(cause),
        }
    }

    /// Takes a newer snapshot in its look, as `try_look` answers.
    #[inline(always)]
    pub(crate) fn try_again(&mut self) -> i64
        ensures { TakesNewer self.old.access self.old.look self.new result }
    {
        let Some(look) = &mut self.look else {
            return NOT_LOOKING;
        };
        match look.try_again(&mut self.access) {
            Ok(true) => 0,
            Ok(false) => 1,
            Err(cause) => CallRefusal::of(cause).code(),
        }
    }

    /// Ends its look, as `try_look` answers.
    #[inline(always)]
    pub(crate) fn end_look(&mut self) -> i64
        ensures { EndsLook self.old.access self.old.look self.new result }
    {
        match self.look.take() {
            Some(look) => {
                drop(look);
                0
            }
            None => NOT_LOOKING,
        }
    }
}

fn crosses<T: Send>(_value: &T) {}

// What a handle stands for may go to another thread, which C rests on.
pub(crate) fn all_cross(state: &HandleState) {
    crosses(state);
}
