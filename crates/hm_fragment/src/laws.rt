//! Laws over the definitions. The functions do nothing.
ghost use Rattle.hm_fragment.specs.Laws.{BoundsAreOfFragments, ClosedPagesTakeNoEndTag, FragmentsAreInBody, FragmentsStayOpen, OpenPagesAreFragments, OpenPagesAreFramed, RewrittenIsReadBack, RewrittenStaysFramed, ShortestIsReadBack};

/// After a page that closes its body, no further end tag of body is read.
pub fn closed_pages_take_no_end_tag()
    ensures { ClosedPagesTakeNoEndTag }
{}

/// The shortest text of a tree of a fragment starts with `front()`, and doesn't close its body.
pub fn fragments_stay_open()
    ensures { FragmentsStayOpen }
{}

/// A page that starts with `front()` and doesn't close its body has the tree of the fragment after it, which is in
/// body.
pub fn open_pages_are_framed()
    ensures framed { OpenPagesAreFramed }
    ensures fragments { OpenPagesAreFragments }
{}

/// The rewritten tree of a fragment is in body too, by any options.
pub fn rewritten_stays_framed()
    ensures { RewrittenStaysFramed }
{}

/// The tree of a fragment is settled, and all of it is in body.
pub fn fragments_are_in_body()
    ensures { FragmentsAreInBody }
{}

/// After `front()`, the shortest text of a tree in body is a fragment with that tree. So is that of the tree of any
/// fragment, rewritten by any options.
pub fn shortest_is_read_back()
    ensures trees { ShortestIsReadBack }
    ensures fragments { RewrittenIsReadBack }
{}

/// A bound on the spellings of a tree, less the bytes of `front()`, bounds the fragments that spell it.
pub fn bounds_are_of_fragments()
    ensures { BoundsAreOfFragments }
{}
