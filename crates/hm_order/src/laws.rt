//! Laws over the definitions. The functions do nothing.
ghost use Rattle.hm_order.specs.Laws.{LikeIsSettled, OrderedBoundsAll, OrderedIsAsLarge, OrderedIsLike, OrderedIsShortest, TagsSplit};

/// The cost of a tag is the sum of the costs of its attributes, the last one counted as the last.
pub fn tags_split()
    ensures { TagsSplit }
{}

/// The order of attributes doesn't matter to whether a tree is settled.
pub fn like_is_settled()
    ensures { LikeIsSettled }
{}

/// The tree that is written has the same attributes.
pub fn ordered_is_like()
    ensures { OrderedIsLike }
{}

/// The tree that is written has as many events, and as many bytes of names, values, texts and comments.
pub fn ordered_is_as_large()
    ensures { OrderedIsAsLarge }
{}

/// No order of any tag's attributes allows a shorter text.
pub fn ordered_is_shortest()
    ensures { OrderedIsShortest }
{}

/// A bound on the texts of the tree that is written bounds those with the attributes in any order.
pub fn ordered_bounds_all()
    ensures { OrderedBoundsAll }
{}
