//! Laws over the definitions. The functions do nothing.
ghost use Rattle.hm_minify.specs.Laws.{FragmentIsChecked, MinifiedIsChecked, OwnIsAccepted, TreeIsChecked};

/// The check finds that what is written of a settled tree is shortest, and gives the number of its bytes.
pub fn own_is_accepted()
    ensures { OwnIsAccepted }
{}

/// A check of what was minified says yes, with the number of bytes of the text.
pub fn minified_is_checked()
    ensures { MinifiedIsChecked }
{}

/// A check of the fragment that was minified says yes, with the number of its bytes.
pub fn fragment_is_checked()
    ensures { FragmentIsChecked }
{}

/// A check says yes to the shortest text of a tree and its certificate, whatever page or JSON gives the tree. So what
/// was minified from JSON can be checked with a page of that tree.
pub fn tree_is_checked()
    ensures { TreeIsChecked }
{}
