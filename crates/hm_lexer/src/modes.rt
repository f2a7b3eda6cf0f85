//! Modes: which kind of text is read.
ghost use Rattle.std.specs.Prelude.{◌≡◌};
ghost use Rattle.hm_lexer.specs.Modes.{mode_of, raw_name, rcdata_name};
ghost use Rattle.hm_lexer.specs.Steps as steps;

/// An element whose text has character references, and no markup (#rcdata-state).
#[derive(Clone, Copy, PartialEq, Eq)]
pub enum RcdataName {
    Title,
    Textarea,
}

impl RcdataName {
    /// The name, in lowercase letters.
    pub fn as_str(self) -> &'static str
        ensures { result.now ≡ rcdata_name self }
    {
        match self {
            RcdataName::Title => "title",
            RcdataName::Textarea => "textarea",
        }
    }
}

/// An element whose text has no character references and no markup (#rawtext-state).
#[derive(Clone, Copy, PartialEq, Eq)]
pub enum RawName {
    Style,
    Iframe,
}

impl RawName {
    /// The name, in lowercase letters.
    pub fn as_str(self) -> &'static str
        ensures { result.now ≡ raw_name self }
    {
        match self {
            RawName::Style => "style",
            RawName::Iframe => "iframe",
        }
    }
}

/// Which kind of text is read next (#data-state to #script-data-state).
#[derive(Clone, Copy, PartialEq, Eq)]
pub enum Mode {
    /// Ordinary text: tags, comments, doctypes, and the text between them.
    Html,
    /// As `Html`, but in an element of SVG, where CDATA sections are read too (#markup-declaration-open-state).
    Foreign,
    /// The text of a title or a textarea, and its end tag.
    Rcdata { name: RcdataName },
    /// The text of a style or an iframe, and its end tag.
    Raw { name: RawName },
    /// The text of a script, and its end tag.
    Script,
}

impl Mode {
    /// Whether there may be start tags.
    pub(crate) fn has_markup(self) -> bool
        ensures { result ≡ steps.has_markup (mode_of self) }
    {
        match self {
            Mode::Html | Mode::Foreign => true,
            Mode::Rcdata { .. } | Mode::Raw { .. } | Mode::Script => false,
        }
    }
}
