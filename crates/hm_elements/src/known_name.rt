//! Known names as constants of the program.
ghost use Rattle.std.specs.Prelude.{◌≡◌, true};
ghost use Rattle.std.specs.Str.{is_utf8};

/// A known name: a constant of the program, which needs no allocation.
#[derive(Clone, Copy)]
pub struct KnownName {
    text: &'static str,
    ghost utf8: { is_utf8 text.now ≡ true },
}

impl KnownName {
    /// The name with this text.
    pub(crate) fn new(text: &'static str) -> KnownName
        ensures { result.text.now ≡ text.now }
    {
        KnownName { text }
    }

    /// The name.
    pub fn as_str(self) -> &'static str
        ensures { result.now ≡ self.text.now }
    {
        self.text
    }
}
