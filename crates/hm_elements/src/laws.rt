//! Laws of the tables of names and of settled walks. The functions do nothing: each contract is a law.
ghost use Rattle.hm_elements.specs.Laws.{ParentsHold, NothingIsMade, SvgIsPlain, SvgIsKept, EndsAreOthers, LeftOpenYields, LeftOpenYieldsInside, LeftOpenFollows, LeftOpenInBody, LeftOpenHolds, LeftOutIsMade, OuterIsNotDeep, NamesAreUtf8, SvgNamesAreNames, RawTextsEnd, SettledHasParts, PartsAreSettled, SomeWalkIsSettled};

/// Facts about which element may be inside which, about made elements and about end tags.
pub fn elements_in_place()
    ensures parents_hold { ParentsHold }
    ensures nothing_is_made { NothingIsMade }
    ensures ends_are_others { EndsAreOthers }
    ensures outer_is_not_deep { OuterIsNotDeep }
{}

/// `svg` in an HTML element: its start tag closes neither a paragraph nor the element in which it is allowed.
pub fn svg_in_place()
    ensures svg_is_plain { SvgIsPlain }
    ensures svg_is_kept { SvgIsKept }
{}

/// If an end tag may be left out (#optional-tags), the next tag that is written closes the element.
pub fn end_tags_left_out()
    ensures is_closed_by_start { LeftOpenYields }
    ensures yields_inside { LeftOpenYieldsInside }
    ensures follows { LeftOpenFollows }
    ensures in_body { LeftOpenInBody }
    ensures holds { LeftOpenHolds }
{}

/// If a start tag may be left out (#optional-tags), the next tag that is written makes the element.
pub fn start_tags_left_out()
    ensures { LeftOutIsMade }
{}

/// Facts about the names of elements.
pub fn element_names()
    ensures utf8 { NamesAreUtf8 }
    ensures svg { SvgNamesAreNames }
{}

/// The text of `style`, `iframe` and `script` before a written end tag (#rawtext-less-than-sign-state to
/// #script-data-double-escape-end-state).
pub fn raw_texts_end()
    ensures { RawTextsEnd }
{}

/// A walk is settled exactly if it is settled part by part, and at least one walk is settled.
pub fn settled_part_by_part()
    ensures has_parts { SettledHasParts }
    ensures parts_settle { PartsAreSettled }
    ensures some_walk { SomeWalkIsSettled }
{}
