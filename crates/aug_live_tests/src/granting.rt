//! Tries that are opened while there is enough memory: none is refused for want of it, whatever its plan and its set are.

use crate::acting::{LiveOf, Waits, fill, plan_of};
use crate::assertions::equal;
use aug_live::{Live, OpenError, Plan};
use aug_trie::Members;

// A trie over a set with so many lanes, each with a handle, and updates, of which the last handle uses so many to put keys in, from the first one on that the set
// does not have. The set after it.
fn opens<R: Waits>(rt: &R, set: Members, plan: Plan, count: u32) -> Result<Members, OpenError> {
    let from = set.size();
    let opened: Result<(LiveOf, _), _> = Live::open_with(rt.alloc(), set, plan.lanes, plan);
    let (live, mut hands) = opened.map_err(|refused| refused.1)?;
    if let Some(mut hand) = hands.pop() {
        equal(rt, fill(rt, &mut hand, true, (from, count)), count);
    }
    let (set, counts) = live.close(rt);
    let size = from.saturating_add(count);
    equal(rt, (set.size(), counts.rounds), (size, 1));
    Ok(set)
}

// The plan with this number, of 337: all numbers of lanes with one to five updates, and one lane with all powers of 2.
fn plan_by(number: u32) -> Plan {
    if number < 320 {
        return plan_of(number % 64 + 1, number / 64 + 1, 2);
    }
    plan_of(1, 1 << (number - 320).min(16), 2)
}

// Tries with all of these plans, or of more than 10 bits each eighth of the first ones, in which the set grows to that of all keys.
fn assert_opens<R: Waits>(rt: &R, bits: u32) -> Result<(), OpenError> {
    let mut set = Members::empty(rt.alloc(), bits).map_err(|_| OpenError::TooLarge)?;
    for number in 0..337 {
        if bits > 10 && number < 320 && number % 8 > 0 {
            continue;
        }
        let (plan, left) = (plan_by(number), set.universe().saturating_sub(set.size()));
        let few = [1, left / 2 + 1, left][usize::from(number >= 320) + usize::from(number == 336)];
        set = opens(rt, set, plan, few.min(left).min(plan.updates))?;
    }
    equal(rt, set.size(), set.universe());
    Ok(())
}

#[test]
fn no_trie_is_refused_for_its_plan_or_its_set(rt: HostRuntime) -> Result<(), OpenError> {
    for bits in 1..=16 {
        assert_opens(&rt, bits)?;
    }
    Ok(())
}
