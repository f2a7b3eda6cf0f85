//! Laws over the trees of generated pages. The functions do nothing.
ghost use Rattle.hm_measure_page_laws.specs.Laws.{PagesAreBuilt};

/// A generated page is read, whatever names the table has, and its tree is settled.
pub fn pages_are_built()
    ensures { PagesAreBuilt }
{}
