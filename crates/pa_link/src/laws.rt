//! What chains keep, as laws: calls that do nothing, and whose clauses are proved.
ghost use Rattle.pa_slot.specs.Links.{LinksStay};
ghost use Rattle.pa_link.specs.Chains.{ChainsAreListed, ChainsStay, LinksElsewhere};

/// A list stays linked in other words that have the same first word for each of its slots.
pub fn links_stay()
    ensures { LinksStay }
{}

/// A chain's titles are those along the links in the words of the view, from its front on.
pub fn chains_are_listed()
    ensures { ChainsAreListed }
{}

/// A chain is one in another view too that holds its titles free and knows the same first words of them.
pub fn chains_stay()
    ensures { ChainsStay }
{}

/// A link that is stored in one free title leaves the first words of the other free titles.
pub fn links_elsewhere()
    ensures { LinksElsewhere }
{}
