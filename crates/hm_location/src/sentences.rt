//! What each rule of refusal means.
ghost use Rattle.std.specs.Prelude.{◌≡◌};
ghost use Rattle.hm_location.specs.Explanations as spec;

use hm_base::Rule;

/// What a rule means, in one sentence.
pub fn meaning(rule: Rule) -> &'static str
    ensures { result.now ≡ spec.meaning rule }
{
    match rule {
        Rule::TooLong => "The page goes on after 16,777,216 bytes, and no more are read.",
        Rule::NotUtf8 => "These bytes aren't UTF-8, which HTML asks for.",
        Rule::Nul => "This is a zero byte, and HTML allows none.",
        Rule::Cut => "What begins here has no end in the page, and HTML asks for one.",
        Rule::BadName => {
            "A name in this tag isn't read: that of an element is a letter and then letters, digits, '.', '_', ':' or '-', and that of an attribute holds no quote and no '<' and doesn't begin with '='."
        }
        Rule::TooManyAttributes => "This tag has more than 256 attributes, and no more are read.",
        Rule::BadDoctype => {
            "This doctype is neither <!doctype html> nor the same with SYSTEM \"about:legacy-compat\", and HTML allows no other."
        }
        Rule::NoDoctype => {
            "No doctype stands before this, and HTML asks for <!doctype html> first."
        }
        Rule::SecondDoctype => {
            "This is a doctype in a later place, and HTML allows one, at the start."
        }
        Rule::RefusedName => {
            "This element is one that isn't read, as template, frameset, math and marquee."
        }
        Rule::SecondRoot => {
            "This start tag of html, head or body comes out of its turn, and HTML has each once, in this order."
        }
        Rule::StrayEnd => "This end tag closes nothing, since no element of its name is open.",
        Rule::NotCurrent => {
            "Elements are open inside the one that this end tag closes, and HTML asks for their end tags first."
        }
        Rule::BlockInParagraph => {
            "This element closes a p, and HTML asks for the end tags of the elements inside that p first."
        }
        Rule::Nested => {
            "This element stands inside another of its kind, which HTML forbids of a, button, form, nobr and headings."
        }
        Rule::WrongParent => {
            "This element can't stand in the one that is open here, and HTML asks for another parent."
        }
        Rule::TextHere => {
            "Text stands here, where HTML allows whitespace alone, as in table and select."
        }
        Rule::AfterHead => "This element belongs in head, which is closed already.",
        Rule::AfterBody => {
            "The body is closed already, and HTML allows whitespace and comments alone after it."
        }
        Rule::Unclosed => "An element is still open here, for which HTML asks for an end tag.",
        Rule::TooDeep => "With this element more than 512 are open, and no more are read.",
        Rule::ForeignName => "This element stands in svg and is none of SVG's.",
        Rule::FrameEnd => {
            "This end tag closes the body around the fragment, which is the content of body alone."
        }
    }
}
