//! Laws over the definitions. The functions do nothing.
ghost use Rattle.hm_scan.specs.TagLaws.{WhateverFollows, WrittenEndsAreRead, WrittenStartsAreRead};

/// A tag that ends is read or refused the same, whatever follows it. The one fault that can change is that the text
/// ends.
pub fn whatever_follows()
    ensures { WhateverFollows }
{}

/// A start tag gives its name, its attributes and its `/`, however it is written: names in any ASCII case, any
/// whitespace, values with and without quotes (#start-tags and #attributes-2).
pub fn written_starts_are_read()
    ensures { WrittenStartsAreRead }
{}

/// An end tag gives its name, however it is written (#end-tags).
pub fn written_ends_are_read()
    ensures { WrittenEndsAreRead }
{}
