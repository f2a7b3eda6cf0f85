//! The rules by which a page is refused.
ghost use Rattle.std.specs.Prelude.{◌≡◌};
ghost use Rattle.hm_base.specs.Rules.{number_of, name_of};

/// Why a page is refused.
///
/// The rules of tokens follow the HTML Standard (#tokenization), and so do those of nesting (#tree-construction).
#[derive(Clone, Copy, Debug, PartialEq, Eq)]
pub enum Rule {
    /// The page has more bytes than its limit.
    TooLong,
    /// The bytes aren't UTF-8.
    NotUtf8,
    /// A zero byte.
    Nul,
    /// The page ends inside a construct.
    Cut,
    /// A name of a tag or an attribute that isn't allowed.
    BadName,
    /// More attributes in one tag than the limit, repeats counted.
    TooManyAttributes,
    /// A doctype in a form that isn't allowed.
    BadDoctype,
    /// Something other than whitespace and comments, or the end of the page, before the doctype.
    NoDoctype,
    /// A doctype after the first one or in a wrong place.
    SecondDoctype,
    /// An element that isn't allowed.
    RefusedName,
    /// An `html`, `head` or `body` start tag out of order.
    SecondRoot,
    /// An end tag whose element isn't open.
    StrayEnd,
    /// An end tag whose element is open, with elements open inside it whose ends aren't implied.
    NotCurrent,
    /// The start of a block while a `p` is open that isn't the current element and would have to close.
    BlockInParagraph,
    /// An element inside one of the same kind, where that isn't allowed.
    Nested,
    /// An element whose parent may not be the current element.
    WrongParent,
    /// Text in a place that only takes whitespace.
    TextHere,
    /// Metadata between `</head>` and the body.
    AfterHead,
    /// Content after `</body>` or `</html>`.
    AfterBody,
    /// An element is open at the end of the page, and its end isn't implied.
    Unclosed,
    /// More open elements than the limit.
    TooDeep,
    /// In SVG, a name outside the SVG list.
    ForeignName,
    /// A fragment that closes the body around it. No page has this rule.
    FrameEnd,
}

impl Rule {
    /// The number of the rule in tables of refusals.
    pub fn number(&self) -> u8
        ensures { result ≡ number_of self.now }
    {
        match self {
            Rule::TooLong => 1,
            Rule::NotUtf8 => 2,
            Rule::Nul => 3,
            Rule::Cut => 4,
            Rule::BadName => 5,
            Rule::TooManyAttributes => 6,
            Rule::BadDoctype => 7,
            Rule::NoDoctype => 8,
            Rule::SecondDoctype => 9,
            Rule::RefusedName => 10,
            Rule::SecondRoot => 11,
            Rule::StrayEnd => 12,
            Rule::NotCurrent => 13,
            Rule::BlockInParagraph => 14,
            Rule::Nested => 15,
            Rule::WrongParent => 16,
            Rule::TextHere => 17,
            Rule::AfterHead => 18,
            Rule::AfterBody => 19,
            Rule::Unclosed => 20,
            Rule::TooDeep => 21,
            Rule::ForeignName => 22,
            Rule::FrameEnd => 23,
        }
    }

    /// The name of the rule, as the program prints it.
    pub fn name(&self) -> &'static str
        ensures { result.now ≡ name_of self.now }
    {
        match self {
            Rule::TooLong => "TooLong",
            Rule::NotUtf8 => "NotUtf8",
            Rule::Nul => "Nul",
            Rule::Cut => "Cut",
            Rule::BadName => "BadName",
            Rule::TooManyAttributes => "TooManyAttributes",
            Rule::BadDoctype => "BadDoctype",
            Rule::NoDoctype => "NoDoctype",
            Rule::SecondDoctype => "SecondDoctype",
            Rule::RefusedName => "RefusedName",
            Rule::SecondRoot => "SecondRoot",
            Rule::StrayEnd => "StrayEnd",
            Rule::NotCurrent => "NotCurrent",
            Rule::BlockInParagraph => "BlockInParagraph",
            Rule::Nested => "Nested",
            Rule::WrongParent => "WrongParent",
            Rule::TextHere => "TextHere",
            Rule::AfterHead => "AfterHead",
            Rule::AfterBody => "AfterBody",
            Rule::Unclosed => "Unclosed",
            Rule::TooDeep => "TooDeep",
            Rule::ForeignName => "ForeignName",
            Rule::FrameEnd => "FrameEnd",
        }
    }
}

/// Why no page is given: a rule refuses it at the byte `at` of the page, or an allocation failed.
#[derive(Clone, Copy, Debug, PartialEq, Eq)]
pub enum Refused {
    Page { rule: Rule, at: u32 },
    OutOfMemory,
}
