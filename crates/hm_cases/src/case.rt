//! One case: arguments and files, and how the run should end.
use crate::escapes::bytes_of;
use crate::faults::{ends_at_each_fault, ends_at_each_tear};
use hm_base::{OutOfMemory, OwnedText};
use hm_minify::{Status, run};
use hm_store::{MemSink, MemStore};
use std::alloc::{AllocError, Global};
use std::io::{self, ErrorKind};

/// A file before the run.
#[derive(Drop)]
struct NamedFile {
    name: String,
    bytes: Vec<u8>,
}

/// The prefixes of a page that give one answer.
#[derive(Drop)]
struct Prefixes {
    /// The length of the longest one in bytes; the shortest is one byte longer than those of the row before.
    last: usize,
    /// The printed line, in which a final `#` means the bytes of the prefix.
    line: String,
}

/// A run in memory, with what is expected of it.
#[derive(Drop)]
pub struct Case {
    name: String,
    words: Vec<OwnedText>,
    /// The files before the run.
    files: Vec<NamedFile>,
    store: MemStore,
    status: u8,
    wanted: Vec<u8>,
    out: Option<Vec<u8>>,
    cert: Option<Vec<u8>>,
    /// Whether each put is to be torn at each of its bytes.
    torn: bool,
    prefixes: Vec<Prefixes>,
}

/// How a run ended.
#[derive(Clone, Copy, PartialEq, Eq)]
pub enum CaseVerdict {
    Agrees,
    /// Its exit status is this one instead.
    OtherStatus(u8),
    OtherOutput,
    /// The file `out` or `cert` has other bytes, or isn't there.
    OtherFile,
    /// `check` doesn't say yes to what `minify` wrote, or `checkfragment` to what `fragment` wrote, in one of the
    /// formats that they write.
    NotShown,
    /// If a call on the files or on the output fails, or a put is torn, the run doesn't end as it should.
    NotEnded,
    /// The prefix of the page with this many bytes has another answer.
    OtherPrefix(usize),
}

/// The I/O error for lack of memory.
pub fn no_memory(_memory: OutOfMemory) -> io::Error {
    io::Error::from(ErrorKind::OutOfMemory)
}

/// Whether a file has the expected bytes, or isn't there if none are expected.
fn holds(store: &MemStore, name: &str, wanted: &Option<Vec<u8>>) -> bool {
    match (store.file(name), wanted) {
        (Some(bytes), Some(wanted)) => bytes == wanted.as_slice(),
        (None, None) => true,
        _ => false,
    }
}

/// Whether a file is as before, or a prefix of what is expected.
fn is_front(before: &MemStore, store: &MemStore, name: &str, wanted: &Option<Vec<u8>>) -> bool {
    let bytes = store.file(name);
    match (bytes, wanted) {
        (Some(bytes), Some(wanted)) if wanted.starts_with(bytes) => true,
        _ => before.file(name) == bytes,
    }
}

/// Whether an argument is a flag that changes the tree: that of a rewrite, or of the order of attributes.
fn rewrites(word: &str) -> bool {
    [
        "--doctype",
        "--comments",
        "--booleans",
        "--empty",
        "--redundant",
        "--space",
        "--conservative",
        "--order",
    ]
    .contains(&word)
}

/// A printed line with its line feed. A final `#` is replaced by the bytes of a prefix.
fn line_of(alloc: Global, bytes: usize, line: &str) -> Result<String, AllocError> {
    match line.split_once('#') {
        Some((front, _)) => format!(in alloc; "{front}{bytes}\n"),
        None => format!(in alloc; "{line}\n"),
    }
}

impl Case {
    /// An empty case.
    pub fn new(alloc: Global) -> Self {
        Case {
            name: String::new(alloc),
            words: Vec::new(alloc),
            files: Vec::new(alloc),
            store: MemStore::new(alloc),
            status: 0,
            wanted: Vec::new(alloc),
            out: None,
            cert: None,
            torn: false,
            prefixes: Vec::new(alloc),
        }
    }

    /// The name of the case.
    pub fn name(&self) -> &str {
        self.name.as_str()
    }

    /// The expected exit status.
    pub fn status(&self) -> u8 {
        self.status
    }

    /// Adds the arguments of the command line, which are separated by single spaces.
    fn take_words(&mut self, alloc: Global, text: &str) -> io::Result<()> {
        for word in text.split(' ') {
            let text = String::from_str(alloc, word)?;
            self.words.push(OwnedText { text })?;
        }
        Ok(())
    }

    /// Adds an expected line of output.
    fn take_line(&mut self, line: &str) -> io::Result<()> {
        self.wanted.extend_from_slice(line.as_bytes())?;
        self.wanted.push(b'\n')?;
        Ok(())
    }

    /// Adds an expected line of output, which may have any bytes.
    fn take_bytes(&mut self, alloc: Global, text: &str) -> io::Result<()> {
        self.wanted
            .extend_from_slice(bytes_of(alloc, text)?.as_slice())?;
        self.wanted.push(b'\n')?;
        Ok(())
    }

    /// Adds a file.
    pub fn take_file(&mut self, alloc: Global, name: &str, bytes: &[u8]) -> io::Result<()> {
        self.files.push(NamedFile {
            name: String::from_str(alloc, name)?,
            bytes: Vec::from_slice(alloc, bytes)?,
        })?;
        match self.store.add(name, bytes) {
            Ok(()) => Ok(()),
            Err(memory) => Err(no_memory(memory)),
        }
    }

    /// Puts the files before the run into a store.
    pub fn fill(&self, store: &mut MemStore) -> io::Result<()> {
        for file in &self.files {
            match store.add(file.name.as_str(), file.bytes.as_slice()) {
                Ok(()) => {}
                Err(memory) => return Err(no_memory(memory)),
            }
        }
        Ok(())
    }

    /// Whether all files but OUT and CERT are as before the run.
    fn keeps_inputs(&self, store: &MemStore) -> bool {
        for file in &self.files {
            let name = file.name.as_str();
            let same = match store.file(name) {
                Some(bytes) => bytes == file.bytes.as_slice(),
                None => false,
            };
            if !same && name != "out" && name != "cert" {
                return false;
            }
        }
        true
    }

    /// Whether the files are as after the whole run.
    pub fn is_whole(&self, store: &MemStore) -> bool {
        self.keeps_inputs(store)
            && holds(store, "out", &self.out)
            && holds(store, "cert", &self.cert)
    }

    /// Whether the files are as a call that fails may leave them: OUT is as before or a prefix of what is expected.
    /// CERT is too, but as before if OUT isn't whole.
    pub fn is_begun(&self, before: &MemStore, store: &MemStore) -> bool {
        let out = is_front(before, store, "out", &self.out);
        let cert = is_front(before, store, "cert", &self.cert);
        let cert_kept = before.file("cert") == store.file("cert");
        self.keeps_inputs(store) && out && cert && (cert_kept || holds(store, "out", &self.out))
    }

    /// Runs the arguments of the case over a store and a sink, and returns the exit status.
    pub fn run_over(&self, alloc: Global, store: &mut MemStore, sink: &mut MemSink) -> u8 {
        run(alloc, self.words.as_slice(), store, sink).code()
    }

    /// The expected output in bytes.
    pub fn wanted(&self) -> &[u8] {
        self.wanted.as_slice()
    }

    /// Adds the file `out` or `cert`, which is there before the run and has to be the same afterwards.
    fn take_kept(&mut self, alloc: Global, name: &str, text: &str) -> io::Result<()> {
        let bytes = bytes_of(alloc, text)?;
        self.take_file(alloc, name, bytes.as_slice())?;
        if name == "out" {
            self.out = Some(bytes);
        } else {
            self.cert = Some(bytes);
        }
        Ok(())
    }

    /// Adds the answer of some prefixes of the page: the length of the last one in bytes, and the line.
    fn take_prefixes(&mut self, alloc: Global, text: &str) -> io::Result<()> {
        let (last, line) = text.split_once(' ').unwrap_or((text, ""));
        match last.parse::<usize>() {
            Ok(last) => {
                let line = String::from_str(alloc, line)?;
                self.prefixes.push(Prefixes { last, line })?;
                Ok(())
            }
            Err(_) => Err(io::Error::from(ErrorKind::InvalidData)),
        }
    }

    /// Adds a line of the case, by its first word. Fails with `InvalidData` if no line of a case starts with that word.
    pub fn take(&mut self, alloc: Global, key: &str, rest: &str) -> io::Result<()> {
        match key {
            "case" => Ok(self.name.push_str(rest)?),
            "words" => self.take_words(alloc, rest),
            "table" | "page" => self.take_file(alloc, key, bytes_of(alloc, rest)?.as_slice()),
            "has_out" => self.take_kept(alloc, "out", rest),
            "has_cert" => self.take_kept(alloc, "cert", rest),
            "status" => match rest.parse::<u8>() {
                Ok(status) => {
                    self.status = status;
                    Ok(())
                }
                Err(_) => Err(io::Error::from(ErrorKind::InvalidData)),
            },
            "|" => self.take_line(rest),
            "says" => self.take_bytes(alloc, rest),
            "torn" => {
                self.torn = true;
                Ok(())
            }
            "prefixes" => self.take_prefixes(alloc, rest),
            "out" => {
                self.out = Some(bytes_of(alloc, rest)?);
                Ok(())
            }
            "cert" => {
                self.cert = Some(bytes_of(alloc, rest)?);
                Ok(())
            }
            _ => Err(io::Error::from(ErrorKind::InvalidData)),
        }
    }

    /// Whether the tree is given as JSON.
    fn is_of_json(&self) -> bool {
        self.words
            .iter()
            .any(|word| word.text.as_str() == "minifyjson")
    }

    /// The arguments of the case, with `check` for `minify`, or `checkfragment` for `fragment`. If the tree is given as
    /// JSON, the page is `copy`, and nothing is rewritten or put into order.
    fn checking(&self, alloc: Global) -> io::Result<Vec<OwnedText>> {
        let of_json = self.is_of_json();
        let mut words = Vec::new(alloc);
        for word in &self.words {
            let text = word.text.as_str();
            if of_json && rewrites(text) {
                continue;
            }
            let text = match text {
                "minify" | "minifyjson" => "check",
                "fragment" => "checkfragment",
                "page" if of_json => "copy",
                _ => text,
            };
            let text = String::from_str(alloc, text)?;
            words.push(OwnedText { text })?;
        }
        Ok(words)
    }

    /// If the tree is given as JSON, adds what was written as the page `copy`.
    fn put_copy(&mut self, alloc: Global) -> io::Result<()> {
        if !self.is_of_json() {
            return Ok(());
        }
        let copy = match &self.out {
            Some(out) => Vec::from_slice(alloc, out.as_slice())?,
            None => Vec::new(alloc),
        };
        match self.store.add("copy", copy.as_slice()) {
            Ok(()) => Ok(()),
            Err(memory) => Err(no_memory(memory)),
        }
    }

    /// The arguments of the case without `--sparse`, or with it if they don't have it.
    fn in_other_format(&self, alloc: Global) -> io::Result<Vec<OwnedText>> {
        let mut words = Vec::new(alloc);
        for word in &self.words {
            if word.text.as_str() != "--sparse" {
                let text = String::from_str(alloc, word.text.as_str())?;
                words.push(OwnedText { text })?;
            }
        }
        if words.len() == self.words.len() {
            let text = String::from_str(alloc, "--sparse")?;
            words.push(OwnedText { text })?;
        }
        Ok(words)
    }

    /// Whether `check` says yes to the files that are there, with as many bytes as `minify` should print.
    fn is_checked(&mut self, alloc: Global) -> io::Result<bool> {
        self.put_copy(alloc)?;
        let words = self.checking(alloc)?;
        let mut sink = MemSink::new(alloc);
        let status = run(alloc, words.as_slice(), &mut self.store, &mut sink);
        let length = self.wanted.strip_prefix(b"length ");
        Ok(
            status == Status::Done
                && length.is_some()
                && sink.bytes().strip_prefix(b"yes ") == length,
        )
    }

    /// Whether the run writes the same text with a certificate of the other format.
    fn writes_again(&mut self, alloc: Global) -> io::Result<bool> {
        let words = self.in_other_format(alloc)?;
        let mut sink = MemSink::new(alloc);
        let status = run(alloc, words.as_slice(), &mut self.store, &mut sink);
        let same = sink.bytes() == self.wanted.as_slice() && holds(&self.store, "out", &self.out);
        Ok(status == Status::Done && same)
    }

    /// Whether `check` says yes to what the run wrote, and to what it writes with a certificate of the other format.
    fn is_shown(&mut self, alloc: Global) -> io::Result<bool> {
        Ok(self.is_checked(alloc)? && self.writes_again(alloc)? && self.is_checked(alloc)?)
    }

    /// Whether the case minifies a page.
    fn is_minified(&self) -> bool {
        self.wanted.starts_with(b"length ")
    }

    /// Runs the case over its store, and returns its status and what was printed.
    fn run_whole(&mut self, alloc: Global, sink: &mut MemSink) -> u8 {
        run(alloc, self.words.as_slice(), &mut self.store, sink).code()
    }

    /// How a run with this status and this output ended, compared with what is expected, also of the files.
    fn judged(&self, status: u8, printed: &[u8]) -> CaseVerdict {
        if status != self.status {
            CaseVerdict::OtherStatus(status)
        } else if printed != self.wanted.as_slice() {
            CaseVerdict::OtherOutput
        } else if !holds(&self.store, "out", &self.out) || !holds(&self.store, "cert", &self.cert) {
            CaseVerdict::OtherFile
        } else {
            CaseVerdict::Agrees
        }
    }

    /// Runs the case, and compares its status, its output and the files.
    fn compared(&mut self, alloc: Global) -> CaseVerdict {
        let mut sink = MemSink::new(alloc);
        let status = self.run_whole(alloc, &mut sink);
        self.judged(status, sink.bytes())
    }

    /// Runs the case, and compares. If it agrees, `check` judges what it wrote, and it is run again with calls that
    /// fail.
    pub fn verdict(&mut self, alloc: Global) -> io::Result<CaseVerdict> {
        let compared = self.compared(alloc);
        if compared != CaseVerdict::Agrees {
            Ok(compared)
        } else if self.is_minified() && !self.is_shown(alloc)? {
            Ok(CaseVerdict::NotShown)
        } else if !ends_at_each_fault(alloc, self)?
            || self.torn && !ends_at_each_tear(alloc, self)?
        {
            Ok(CaseVerdict::NotEnded)
        } else {
            self.verdict_of_prefixes(alloc)
        }
    }

    /// The page, or no bytes if there is none.
    fn page(&self) -> &[u8] {
        for file in &self.files {
            if file.name.as_str() == "page" {
                return file.bytes.as_slice();
            }
        }
        &[]
    }

    /// Whether the case prints this line if the page is its prefix of this many bytes, in an empty store.
    fn prints(
        &self,
        alloc: Global,
        store: &mut MemStore,
        bytes: usize,
        line: &str,
    ) -> io::Result<bool> {
        self.fill(store)?;
        let page = self.page();
        match store.add("page", &page[..bytes.min(page.len())]) {
            Ok(()) => {}
            Err(memory) => return Err(no_memory(memory)),
        }
        let mut sink = MemSink::new(alloc);
        let status = self.run_over(alloc, store, &mut sink);
        let wanted: u8 = if line.starts_with("length ") { 0 } else { 3 };
        Ok(status == wanted && sink.bytes() == line.as_bytes())
    }

    /// Whether the prefix of the page with this many bytes has this answer.
    fn answers(&self, alloc: Global, bytes: usize, line: &str) -> io::Result<bool> {
        let line = line_of(alloc, bytes, line)?;
        let mut store = MemStore::new(alloc);
        self.prints(alloc, &mut store, bytes, line.as_str())
    }

    /// The first of these prefixes that has another answer.
    fn other_prefix(
        &self,
        alloc: Global,
        first: usize,
        prefixes: &Prefixes,
    ) -> io::Result<Option<usize>> {
        for bytes in first..=prefixes.last {
            if !self.answers(alloc, bytes, prefixes.line.as_str())? {
                return Ok(Some(bytes));
            }
        }
        Ok(None)
    }

    /// Compares the answers of all prefixes of the page, if the case lists them.
    fn verdict_of_prefixes(&self, alloc: Global) -> io::Result<CaseVerdict> {
        let mut next: usize = 0;
        for prefixes in &self.prefixes {
            if let Some(bytes) = self.other_prefix(alloc, next, prefixes)? {
                return Ok(CaseVerdict::OtherPrefix(bytes));
            }
            next = prefixes.last.saturating_add(1);
        }
        if !self.prefixes.is_empty() && next != self.page().len().saturating_add(1) {
            return Ok(CaseVerdict::OtherPrefix(next));
        }
        Ok(CaseVerdict::Agrees)
    }

    /// The length of the expected file `out` in bytes, or 0 if there is none.
    pub fn out_length(&self) -> usize {
        self.out.as_ref().map_or(0, |out| out.len())
    }

    /// The length of the expected file `cert` in bytes, or 0 if there is none.
    pub fn cert_length(&self) -> usize {
        self.cert.as_ref().map_or(0, |cert| cert.len())
    }
}
