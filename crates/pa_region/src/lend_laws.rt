//! What a seat that lends its stake keeps, as laws: calls that do nothing, but have proved clauses.
ghost use Rattle.pa_region.specs.Lending.{LendsBack, HostsKeep, EnteringKeeps, KeepingGoesOn, LendsAgain, KeptNumbersStay};

/// A seat that lent its stake and gets it back keeps what it has, and the stake's log has what was done with it.
pub fn lent_stakes_come_back()
    ensures { LendsBack }
{}

/// A seat that borrowed a stake and gave it back keeps what it has.
pub fn hosts_keep()
    ensures { HostsKeep }
{}

/// A seat that makes an entry in a keeper's list keeps what it has.
pub fn entering_keeps()
    ensures { EnteringKeeps }
{}

/// Keeping is transitive: a view that keeps what the second has keeps what the first has, if the second keeps that.
pub fn keeping_goes_on()
    ensures { KeepingGoesOn }
{}

/// A seat that lent its stake, or borrowed one, can do so again.
pub fn who_lent_can_lend_again()
    ensures { LendsAgain }
{}

/// A view that keeps a title that it holds free has seen the same number of it.
pub fn kept_numbers_stay()
    ensures { KeptNumbersStay }
{}
