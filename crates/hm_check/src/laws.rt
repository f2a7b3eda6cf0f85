//! What a check's answer is worth. The functions do nothing.
ghost use Rattle.hm_check.specs.Laws.{MinifiedIsAccepted, PriceRulesAgree, SpellingsAreAccepted, YesIsEarned, YesShows};

/// The check's rule of prices is the one that shows a bound: it finds no price above its bound exactly if the prices of
/// all layers are feasible.
pub fn price_rules_agree()
    ensures { PriceRulesAgree }
{}

/// The check says yes exactly if the text parses to the tree and the prices are feasible and bound it, by the same
/// rules and within the limit. Nothing is required of the tree.
pub fn yes_is_earned()
    ensures { YesIsEarned }
{}

/// A yes on text and prices from any source shows that the text parses to the tree and that no spelling of it is
/// shorter.
pub fn yes_shows()
    ensures { YesShows }
{}

/// A spelling of the tree within the limit is not refused, and its tree doesn't differ.
pub fn spellings_are_accepted()
    ensures { SpellingsAreAccepted }
{}

/// The text of the first way, with the least prices, is accepted within the limit.
pub fn minified_is_accepted()
    ensures { MinifiedIsAccepted }
{}
