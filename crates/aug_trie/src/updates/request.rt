//! What an update is asked to do.
ghost use Rattle.std.specs.Prelude.{◌≡◌, ◌≤◌};
ghost use Rattle.aug_trie.specs.inside.Counted.{insertions_by as insertions, removals_by as removals};

use aug_model::Outcome;

/// What an update does to its key.
#[derive(Clone, Copy)]
pub enum Request {
    /// It puts the key in, with the key itself as its weight, if it is not there.
    Insert,
    /// It takes the key out, if it is there.
    Remove,
    /// It puts the key in with this weight, or gives this weight to it if it is there.
    Put(u32),
    /// It adds this amount to the weight of the key, and puts the key in with it if it is not there. An amount of 0 changes nothing.
    Add(u32),
    /// It takes this amount from the weight of the key, and takes the key out if nothing of it is left. An amount of 0 changes nothing.
    Sub(u32),
    /// It takes the key out, if it is there and weighs exactly this much.
    Take(u32),
}

// How many insertions it is that came to this.
#[inline(always)]
pub(crate) fn insertions_by(request: Request, outcome: Outcome) -> u32
    ensures value { result ≡ insertions request outcome }
    ensures few { result ≤ 1 }
{
    match (request, outcome) {
        (_, Outcome::Replaced) => 1,
        (Request::Insert | Request::Put(_) | Request::Add(_), Outcome::Accepted) => 1,
        _ => 0,
    }
}

// How many removals it is.
#[inline(always)]
pub(crate) fn removals_by(request: Request, outcome: Outcome) -> u32
    ensures value { result ≡ removals request outcome }
    ensures few { result ≤ 1 }
{
    match (request, outcome) {
        (_, Outcome::Replaced) => 1,
        (Request::Remove | Request::Sub(_) | Request::Take(_), Outcome::Accepted) => 1,
        _ => 0,
    }
}
