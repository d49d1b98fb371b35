//! What the region's rule says for any number of seats, as laws: calls that do nothing, but have proved clauses.
ghost use Rattle.pa_region.specs.Ends.{UnnamedEndsNew};
ghost use Rattle.pa_region.specs.Says.{CountKeeps, CountIsEvent, SealedKeeps, SealedIsEvent, LookKeeps, LookIsLoad, StoreKeeps, PoisonKeeps, PlainIsLoad, ReadKeeps, HandKeeps, JoinKeeps, EnterKeeps, AddKeeps, KindsAreOwed, CutKeeps, UncutKeeps, StartKeeps, ShowsGood, FindsEachNumberOnce, UnnamedIsNew, NamedAreOne};

/// Each counted step keeps the rule.
pub fn counted_steps_keep_the_rule()
    ensures { CountKeeps }
{}

/// Each counted step is an enabled event of the core that is shown.
pub fn each_counted_step_is_its_event()
    ensures { CountIsEvent }
{}

/// Each issue of a sealed Own keeps the rule.
pub fn sealed_steps_keep_the_rule()
    ensures { SealedKeeps }
{}

/// Each issue of a sealed Own is that enabled event of the core that is shown.
pub fn each_sealed_step_is_its_event()
    ensures { SealedIsEvent }
{}

/// Each look keeps the rule.
pub fn looks_keep_the_rule()
    ensures { LookKeeps }
{}

/// Each look is a load of the count word in the core that is shown.
pub fn each_look_is_a_load()
    ensures { LookIsLoad }
{}

/// Each store is an enabled event of the core that is shown, and keeps the rule.
pub fn stores_keep_the_rule()
    ensures { StoreKeeps }
{}

/// Each poisoning of a word is an enabled event of the core that is shown, and keeps the rule.
pub fn poisonings_keep_the_rule()
    ensures { PoisonKeeps }
{}

/// The load of a word that its view knows without a handle is a load in the core that is shown.
pub fn each_plain_load_is_a_load()
    ensures { PlainIsLoad }
{}

/// Each read is a load in the core that is shown, and keeps the rule.
pub fn reads_keep_the_rule()
    ensures { ReadKeeps }
{}

/// Each hand keeps the rule.
pub fn hands_keep_the_rule()
    ensures { HandKeeps }
{}

/// Each entry in a keeper's list keeps the rule.
pub fn entries_keep_the_rule()
    ensures { EnterKeeps }
{}

/// Each join keeps the rule.
pub fn joins_keep_the_rule()
    ensures { JoinKeeps }
{}

/// Each cut of a title out of raw bytes is an enabled event of the core that is shown, and keeps the rule.
pub fn cuts_keep_the_rule()
    ensures { CutKeeps }
{}

/// Each uncut is an enabled event of the core that is shown, and keeps the rule.
pub fn uncuts_keep_the_rule()
    ensures { UncutKeeps }
{}

/// Each addition to a totals word keeps the rule, and its sum fits the word.
pub fn additions_keep_the_rule()
    ensures { AddKeeps }
{}

/// Under the rule the totals words of a kind are what was added to them, which isn't above the bytes of the steps of the kind.
pub fn totals_are_owed()
    ensures { KindsAreOwed }
{}

/// A new region meets the rule.
pub fn a_new_region_meets_the_rule()
    ensures { StartKeeps }
{}

/// Under the rule the core that words and views show is good.
pub fn the_shown_core_is_good()
    ensures { ShowsGood }
{}

/// Under the rule the counted steps in all logs found each number of a title once.
pub fn each_number_is_found_once()
    ensures { FindsEachNumberOnce }
{}

/// Under the rule a title that no log names has the word 0.
pub fn an_unnamed_title_is_new()
    ensures { UnnamedIsNew }
{}

/// Under the rule two titles that logs name for one slot are the same, which is well formed, and held unless it was uncut.
pub fn a_named_title_is_held()
    ensures { NamedAreOne }
{}

/// At the end a title that the closing seat holds, and that no log names, has the word 0.
pub fn an_unnamed_title_ends_new()
    ensures { UnnamedEndsNew }
{}
