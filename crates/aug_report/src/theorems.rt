//! Theorems over the definitions, each a clause of a function that does nothing.
ghost use Rattle.aug_report.specs.Theorems.{HasOneList, HasOneReport, InTurnIsAllowed, LostHasCause, NewChanges, NextRoundGoesOn, NotBothNew, NotBothOld, OldHasCause, OneOfTwoIsNew, ScriptHasOneList, SeesItsInsertion, SetKeepsTheKey, SizesAddUp, SnapshotsShowAccepted, ThreeAtOnce, TotalsCountLines, WeightIsSeen, WeightsWerePut};

/// Of two lanes that insert one key into a set without it, one has `new` and the other `old`, whichever it is.
pub fn two_insertions()
    ensures either { OneOfTwoIsNew }
    ensures not_both_new { NotBothNew }
    ensures not_both_old { NotBothOld }
{}

/// A round whose rows are all of one lane has one report, that of its rows run in turn.
pub fn one_lane()
    ensures one_report { HasOneReport }
    ensures allowed { InTurnIsAllowed }
{}

/// Rounds of one lane each have one list of reports, that of their rows run in turn. So a script of one lane prints one text.
pub fn one_list()
    ensures reports { HasOneList }
    ensures of_a_script { ScriptHasOneList }
{}

/// Three changes of a key may show at once: its serial goes from 0 to 3, and no snapshot has 1 or 2.
pub fn three_at_once()
    ensures allowed { ThreeAtOnce }
{}

/// A report's totals count its lines, and the size follows from them.
pub fn totals()
    ensures count_lines { TotalsCountLines }
    ensures sizes_add_up { SizesAddUp }
{}

/// A snapshot is no older than what its lane had accepted before.
pub fn own_updates()
    ensures seen { SeesItsInsertion }
    ensures shown { SnapshotsShowAccepted }
{}

/// A lane that is alone has `new` only if the set changes, and `old` only if the key was in.
pub fn causes()
    ensures new_changes { NewChanges }
    ensures old_has_cause { OldHasCause }
{}

/// A round opens with the set that the one before it left.
pub fn rounds()
    ensures goes_on { NextRoundGoesOn }
{}

/// While a weight is replaced no snapshot is without the key, each weight that shows was put, and a put is lost only if something changed.
pub fn weights()
    ensures set_keeps_the_key { SetKeepsTheKey }
    ensures is_seen { WeightIsSeen }
    ensures were_put { WeightsWerePut }
    ensures lost_has_cause { LostHasCause }
{}
