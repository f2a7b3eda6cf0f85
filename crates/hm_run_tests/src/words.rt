//! What the arguments of a call ask for.
use crate::made::worded;
use hm_base::{SpellRules, TreeOptions};
use hm_words::{Asked, Origin, WordsFault, Work};
use std::alloc::{AllocError, Global};
use std::process::Abort;

/// No rewrites.
const NO_OPTIONS: TreeOptions = TreeOptions {
    doctype: false,
    comments: false,
    booleans: false,
    empty: false,
    redundant: false,
    space: false,
    conservative: false,
};

/// The rules without any flag.
const NO_RULES: SpellRules = SpellRules {
    omit: false,
    unquote: false,
    tight: false,
    ascii: false,
    frame: false,
};

/// Whether a request is the command of this name with these names of files.
fn is_command(asked: &Asked<'_>, wanted: &[&str]) -> bool {
    match asked.origin {
        Origin::PageAt { table, page } => match asked.work {
            Work::Minify { out, cert } => wanted == ["minify", table, page, out, cert].as_slice(),
            Work::Check { out, cert } => wanted == ["check", table, page, out, cert].as_slice(),
            Work::Show => wanted == ["tree", table, page].as_slice(),
            Work::TellJson => wanted == ["json", table, page].as_slice(),
            Work::Explain => wanted == ["explain", table, page].as_slice(),
            Work::Measure => false,
        },
        Origin::FragmentAt { table, page } => match asked.work {
            Work::Minify { out, cert } => wanted == ["fragment", table, page, out, cert].as_slice(),
            Work::Check { out, cert } => {
                wanted == ["checkfragment", table, page, out, cert].as_slice()
            }
            _ => false,
        },
        Origin::JsonAt { table, page } => match asked.work {
            Work::Minify { out, cert } => wanted
                == ["minifyjson", table, page, out, cert].as_slice(),
            _ => false,
        },
        Origin::Made {
            table,
            number,
            size,
        } => match asked.work {
            Work::Measure => {
                wanted == ["measure", table].as_slice() && number == 4_294_967_295 && size == 20_000
            }
            _ => false,
        },
    }
}

/// The arguments in a text, and the command, the options and the rules that they ask for.
struct Request {
    text: &'static str,
    command: &'static [&'static str],
    options: TreeOptions,
    rules: SpellRules,
    sparse: bool,
}

/// Whether the arguments in a text ask for this.
fn asks(alloc: Global, request: &Request) -> Result<bool, AllocError> {
    let words = worded(alloc, request.text)?;
    match Asked::read(alloc, words.as_slice()) {
        Ok(asked) => Ok(
            is_command(&asked, request.command)
                && asked.options == request.options
                && asked.writing.rules == request.rules
                && asked.writing.sparse == request.sparse,
        ),
        Err(_) => Ok(false),
    }
}

/// Asserts whether the arguments in a text ask for this.
fn expect_asked(rt: &impl Abort, alloc: Global, request: &Request, wanted: bool) {
    match asks(alloc, request) {
        Ok(asks) => assert!(rt; asks == wanted, "{}", request.text),
        Err(_) => assert!(rt; false, "memory"),
    }
}

/// The options of `--comments`.
const COMMENTED: TreeOptions = TreeOptions {
    comments: true,
    ..NO_OPTIONS
};

/// The options of `--space --conservative`.
const SPACED: TreeOptions = TreeOptions {
    space: true,
    conservative: true,
    ..NO_OPTIONS
};

/// The rules of `--omit`.
const OMITTED: SpellRules = SpellRules {
    omit: true,
    ..NO_RULES
};

/// The rules of a fragment with `--omit`.
const FRAMED: SpellRules = SpellRules {
    frame: true,
    ..OMITTED
};

/// The rules of `--omit --unquote`.
const SPELLED: SpellRules = SpellRules {
    unquote: true,
    ..OMITTED
};

/// The rules of `--omit --unquote --tight --ascii`.
const ALL_RULES: SpellRules = SpellRules {
    tight: true,
    ascii: true,
    ..SPELLED
};

/// Texts that ask for something.
const REQUESTS: [Request; 7] = [
    Request {
        text: "minify none page out cert --omit --unquote",
        command: &["minify", "none", "page", "out", "cert"],
        options: NO_OPTIONS,
        rules: SPELLED,
        sparse: false,
    },
    Request {
        text: "checkfragment none page --omit out cert",
        command: &["checkfragment", "none", "page", "out", "cert"],
        options: NO_OPTIONS,
        rules: FRAMED,
        sparse: false,
    },
    Request {
        text: "--ascii minify --unquote table page --tight out cert --sparse --omit --comments",
        command: &["minify", "table", "page", "out", "cert"],
        options: COMMENTED,
        rules: ALL_RULES,
        sparse: true,
    },
    Request {
        text: "tree none none",
        command: &["tree", "none", "none"],
        options: NO_OPTIONS,
        rules: NO_RULES,
        sparse: false,
    },
    Request {
        text: "--space tree none --conservative page",
        command: &["tree", "none", "page"],
        options: SPACED,
        rules: NO_RULES,
        sparse: false,
    },
    Request {
        text: "measure 0 --comments 4294967295 20000",
        command: &["measure", "0"],
        options: COMMENTED,
        rules: NO_RULES,
        sparse: false,
    },
    Request {
        text: "--omit tree none page",
        command: &["tree", "none", "page"],
        options: NO_OPTIONS,
        rules: OMITTED,
        sparse: false,
    },
];

/// Arguments ask for their requests.
#[test]
fn requests(rt: HostRuntime) {
    for request in &REQUESTS {
        expect_asked(&rt, rt.alloc(), request, true);
    }
}

/// A text without `--omit`, which doesn't ask for its rules.
const NOT_ASKED: Request = Request {
    text: "checkfragment none page out cert",
    command: &["checkfragment", "none", "page", "out", "cert"],
    options: NO_OPTIONS,
    rules: FRAMED,
    sparse: false,
};

/// Arguments ask for no other request.
#[test]
fn other_requests(rt: HostRuntime) {
    expect_asked(&rt, rt.alloc(), &NOT_ASKED, false);
}

/// Whether the arguments in a text ask for attributes in the order that is shortest.
fn is_ordered(alloc: Global, text: &str) -> Result<bool, AllocError> {
    let words = worded(alloc, text)?;
    match Asked::read(alloc, words.as_slice()) {
        Ok(asked) => Ok(asked.writing.order),
        Err(_) => Ok(false),
    }
}

/// Only `--order` asks for attributes in order.
#[test]
fn order(rt: HostRuntime) -> Result<(), AllocError> {
    let alloc = rt.alloc();
    assert!(rt; is_ordered(alloc, "--order check none page out cert")?);
    assert!(rt; !is_ordered(alloc, "check none page out cert --tight")?);
    Ok(())
}

/// In each line arguments without a meaning. The last line is empty.
const NO_REQUESTS: &str = "\
    tree none page --conservative\n\
    minify none page out cert --conservative\n\
    tree none page --space --space\n\
    minify none page out cert --omit --omit\n\
    minify none page out cert --omit=1\n\
    minify none -- page out cert\n\
    tree none -h\n\
    tree none page --help\n\
    tree none page --version\n\
    tree none page --comment\n\
    tree none page -\n\
    tree none\n\
    tree page page\n\
    tree none page more\n\
    minify none page out\n\
    tree  page\n\
    minify none page  cert\n\
    minify none page out out\n\
    minify out page out cert\n\
    measure none 01 1\n\
    measure none 0 01\n\
    measure none 00 1\n\
    measure none 0 0\n\
    measure none 0 20001\n\
    measure none 4294967296 1\n\
    measure none 18446744073709551616 1\n\
    measure none +1 1\n\
    measure none 1 x\n\
    measure none 1 1_0\n\
    measure none  1\n\
    measure none 0 1 1\n\
    measure none 0\n\
    measure none 0 1 --order\n\
    \n";

/// Whether the arguments in a text have no meaning.
fn is_meaningless(alloc: Global, text: &str) -> bool {
    match worded(alloc, text) {
        Ok(words) => matches!(Asked::read(alloc, words.as_slice()), Err(WordsFault::Usage)),
        Err(_) => false,
    }
}

/// Asserts that the arguments in a text have no meaning.
fn expect_meaningless(rt: &impl Abort, alloc: Global, text: &str) {
    assert!(rt; is_meaningless(alloc, text), "{text}");
}

/// Arguments without a meaning are refused.
#[test]
fn no_requests(rt: HostRuntime) {
    for text in NO_REQUESTS.lines() {
        expect_meaningless(&rt, rt.alloc(), text);
    }
}

/// No arguments have no meaning.
#[test]
fn no_words(rt: HostRuntime) {
    let answer = Asked::read(rt.alloc(), &[]);
    assert!(rt; matches!(answer, Err(WordsFault::Usage)));
}
