//! One row, run by a pass.
ghost use Rattle.std.specs.Prelude.{◌≡◌, ◌+◌, ◌<◌, IsTrue, if◌then◌else◌};
ghost use Rattle.aug_trie.specs.Snapshot.{HasSnapshot};
ghost use Rattle.aug_report.specs.AllowedReport.{Answers, reply_to_put};
ghost use Rattle.aug_script.specs.Script.{is_in_bounds, is_update};
ghost use Rattle.aug_run.specs.inside.Workers.{lane_at};

use crate::trie::PassOf;
use aug_query::descent::{After, Before, Has, Range, Rank, Select, Size, Weight};
use aug_script::{Reply, Verb};
use aug_trie::{Outcome, Snapshot};

/// Runs a verb and answers it: updates on the pass, `look` by a new snapshot, and queries from the snapshot that is held.
pub(crate) fn answer(pass: &mut PassOf, held: &mut Snapshot, verb: Verb) -> Reply
    requires held { HasSnapshot pass.old held.old }
    requires in_bounds { IsTrue (is_in_bounds pass.old.round.bits verb) }
    requires budget { IsTrue (is_update verb) → pass.old.spent < pass.old.round.updates }
    ensures answers { Answers verb result (lane_at pass.old held.old) (lane_at pass.new held.new) }
    ensures held { HasSnapshot pass.new held.new }
    ensures round { pass.new.round ≡ pass.old.round }
    ensures spent { pass.new.spent ≡ pass.old.spent + (if is_update verb then 1 else 0) }
{
    match verb {
        Verb::Insert(key) => {
            if pass.insert(key) {
                Reply::New
            } else {
                Reply::Old
            }
        }
        Verb::Put(key, weight) => put_reply(pass.put(key, weight)),
        Verb::Remove(key) => {
            if pass.remove(key) {
                Reply::Gone
            } else {
                Reply::Absent
            }
        }
        Verb::Look => {
            *held = pass.snapshot();
            Reply::Looked
        }
        Verb::Has(key) => {
            if pass.ask(*held, Has(key)) {
                Reply::Yes
            } else {
                Reply::No
            }
        }
        Verb::Weight(key) => Reply::Found(pass.ask(*held, Weight(key))),
        Verb::Size => Reply::Number(pass.ask(*held, Size)),
        Verb::Rank(key) => Reply::Number(pass.ask(*held, Rank(key))),
        Verb::Select(index) => Reply::Found(pass.ask(*held, Select(index))),
        Verb::Before(key) => Reply::Found(pass.ask(*held, Before(key))),
        Verb::After(key) => Reply::Found(pass.ask(*held, After(key))),
        Verb::Range(from, to) => Reply::Span(pass.ask(*held, Range(from, to))),
    }
}

// The reply to a put that came to this.
fn put_reply(outcome: Outcome) -> Reply
    ensures { result ≡ reply_to_put outcome }
{
    match outcome {
        Outcome::Accepted => Reply::New,
        Outcome::Replaced => Reply::Set,
        _ => Reply::Lost,
    }
}
