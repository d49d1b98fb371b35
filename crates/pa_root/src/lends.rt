//! What a root's seat does with a lent stake besides making entries, and seats that show each other what they have seen.
ghost use Rattle.std.specs.Prelude.{◌≡◌, ℕ, ◌<◌};
ghost use Rattle.pa_region.specs.Views.{free_of, least_stake};
ghost use Rattle.pa_region.specs.Lending.{CanLend, CanHost};
ghost use Rattle.pa_root.specs.Uncutting.{IsUncutWith, IsShown};

use pa_region::{Region, Seat, lend_stake};
use pa_slot::Title;

/// Uncuts the host's free title, with the lender's least stake, so that its log says so.
/// The stake is lent to the host and comes back.
pub fn uncut_with(region: &Region, lender: &mut Seat, host: &mut Seat, title: Title)
    requires regions { (lender.old.region ≡ region.now) × (host.old.region ≡ region.now) }
    requires lender { CanLend lender.old.view }
    requires host { CanHost host.old.view }
    requires free { 0 < free_of host.old.view title }
    ensures regions { (lender.new.region ≡ lender.old.region) × (host.new.region ≡ host.old.region) }
    ensures uncut { IsUncutWith (least_stake lender.old.view.stakes) title lender.old.view lender.new.view host.old.view host.new.view }
{
    lender.aware();
    host.aware();
    let lent = lend_stake(region, lender);
    region.take(host, lent);
    host.aware();
    region.uncut(host, title);
    let back = lend_stake(region, host);
    region.take(lender, back);
    lender.aware();
}

/// Shows a seat what another has seen, of titles and of lists. Each keeps what it has.
pub fn show_seen(region: &Region, from: &mut Seat, to: &mut Seat)
    requires regions { (from.old.region ≡ region.now) × (to.old.region ≡ region.now) }
    ensures regions { (from.new.region ≡ from.old.region) × (to.new.region ≡ to.old.region) }
    ensures shown { IsShown from.old.view from.new.view to.old.view to.new.view }
{
    from.aware();
    to.aware();
    let note = region.hand(from, &[], 0, &[]);
    region.take(to, note);
    to.aware();
}
