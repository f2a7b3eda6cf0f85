//! The exit statuses of a run.
ghost use Rattle.std.specs.Prelude.{◌≡◌};
ghost use Rattle.hm_minify.specs.Codes.{code_of};

/// How a run ends.
#[derive(Clone, Copy, PartialEq, Eq)]
pub enum Status {
    /// What the arguments ask for is done.
    Done,
    /// The certificate doesn't show that the text is the shortest.
    No,
    /// The arguments have no meaning.
    Usage,
    /// The page is refused.
    PageRefused,
    /// The table is refused.
    TableRefused,
    /// A call on the store failed, or a file isn't there.
    StoreFault,
    /// A call on the sink failed.
    SinkFault,
    /// No memory could be allocated.
    OutOfMemory,
    /// The JSON of a tree is refused.
    JsonRefused,
}

impl Status {
    /// The exit status as a number.
    pub fn code(self) -> u8
        ensures { result ≡ code_of self }
    {
        match self {
            Status::Done => 0,
            Status::No => 1,
            Status::Usage => 2,
            Status::PageRefused => 3,
            Status::TableRefused => 4,
            Status::StoreFault => 5,
            Status::SinkFault => 6,
            Status::OutOfMemory => 7,
            Status::JsonRefused => 8,
        }
    }
}
