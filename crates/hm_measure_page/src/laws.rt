//! Laws over generated pages. The functions do nothing.
ghost use Rattle.hm_measure_page.specs.Laws.{PagesArePlain, PagesAreShort, PagesAreTexts, PagesAreWithinLimit};

/// A generated page is ASCII, without a zero byte and CR. So it has a text (HTML Standard, #the-input-byte-stream),
/// which is the page itself.
pub fn pages_are_texts()
    ensures plain { PagesArePlain }
    ensures texts { PagesAreTexts }
{}

/// A generated page with up to 20,000 blocks is within the limit of pages.
pub fn pages_are_short()
    ensures bytes { PagesAreShort }
    ensures limit { PagesAreWithinLimit }
{}
