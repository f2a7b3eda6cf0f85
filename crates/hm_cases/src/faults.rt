//! The run of a case over stores and sinks that fail: at each call in turn, and at puts that are torn.
use crate::case::{Case, no_memory};
use hm_base::OutOfMemory;
use hm_store::{MemSink, MemStore, Sink, Store};
use std::alloc::Global;
use std::io;

/// The exit status of a run in which a call on the files failed.
const STORE_FAULT: u8 = 5;

/// The line that such a run prints.
const STORE_LINE: &[u8] = b"store fault\n";

/// The exit status of a run in which a call on the output failed.
const SINK_FAULT: u8 = 6;

/// More calls than a run makes on its files.
const MOST_CALLS: u32 = 64;

/// The answer, with lack of memory as an I/O error.
fn kept<T>(answer: Result<T, OutOfMemory>) -> io::Result<T> {
    match answer {
        Ok(value) => Ok(value),
        Err(memory) => Err(no_memory(memory)),
    }
}

/// What a call that is listed to fail, and the one after it, did to a run.
#[derive(Clone, Copy)]
enum Listed {
    /// The run made it, and no call after it.
    MadeLast,
    /// The run made no such call: both are left.
    NotMade,
    Passed,
}

/// What happened to the two calls, by whether the next two calls fail.
fn which_of(first: bool, second: bool) -> Listed {
    match (first, second) {
        (true, false) => Listed::MadeLast,
        (true, true) => Listed::NotMade,
        (false, _) => Listed::Passed,
    }
}

/// How a run with a call that is listed to fail ended.
#[derive(Clone, Copy)]
enum Ended {
    /// The run makes fewer calls, and is as it should be.
    Whole,
    /// The call ended the run, and all is as it should be.
    AtCall,
    Otherwise,
}

/// `ending` if the run is as it should be, and else that it isn't.
fn where_right(ending: Ended, is_right: bool) -> Ended {
    if is_right { ending } else { Ended::Otherwise }
}

/// Runs the case over an empty store with a call on it that is listed to fail, and the one after it too. `before` is
/// another empty store, for the files before the run.
fn over_store(
    alloc: Global,
    case: &Case,
    call: u32,
    before: &mut MemStore,
    store: &mut MemStore,
) -> io::Result<Ended> {
    case.fill(before)?;
    case.fill(store)?;
    kept(store.fail(call))?;
    kept(store.fail(call.saturating_add(1)))?;
    let mut sink = MemSink::new(alloc);
    let status = case.run_over(alloc, store, &mut sink);
    let first = store.open_in("page").is_err();
    let second = store.open_in("page").is_err();
    Ok(match which_of(first, second) {
        Listed::MadeLast => {
            let says = status == STORE_FAULT && sink.bytes() == STORE_LINE;
            where_right(Ended::AtCall, says && case.is_begun(before, store))
        }
        Listed::NotMade => {
            let says = status == case.status() && sink.bytes() == case.wanted();
            where_right(Ended::Whole, says && case.is_whole(store))
        }
        Listed::Passed => Ended::Otherwise,
    })
}

/// Runs the case with a call on the store that is listed to fail, and the one after it too.
fn at_store_call(alloc: Global, case: &Case, call: u32) -> io::Result<Ended> {
    let mut before = MemStore::new(alloc);
    let mut store = MemStore::new(alloc);
    over_store(alloc, case, call, &mut before, &mut store)
}

/// Whether each call on the store ends the run, up to the first that the run doesn't make.
fn ends_at_store_calls(alloc: Global, case: &Case) -> io::Result<bool> {
    for call in 1..=MOST_CALLS {
        match at_store_call(alloc, case, call)? {
            Ended::AtCall => {}
            Ended::Whole => return Ok(true),
            Ended::Otherwise => return Ok(false),
        }
    }
    Ok(false)
}

/// Runs the case over an empty store and sink with a call on the sink that is listed to fail, and the one after it too. The files are
/// whole in any case.
fn over_sink(
    alloc: Global,
    case: &Case,
    call: u32,
    store: &mut MemStore,
    sink: &mut MemSink,
) -> io::Result<Ended> {
    case.fill(store)?;
    kept(sink.fail(call))?;
    kept(sink.fail(call.saturating_add(1)))?;
    let status = case.run_over(alloc, store, sink);
    let whole = case.is_whole(store);
    let begun = case.wanted().starts_with(sink.bytes());
    let all = sink.bytes() == case.wanted();
    let first = sink.put(b"").is_err();
    let second = sink.put(b"").is_err();
    Ok(match which_of(first, second) {
        Listed::MadeLast => where_right(Ended::AtCall, status == SINK_FAULT && begun && whole),
        Listed::NotMade => where_right(Ended::Whole, status == case.status() && all && whole),
        Listed::Passed => Ended::Otherwise,
    })
}

/// Runs the case with a call on the sink that is listed to fail, and the one after it too.
fn at_sink_call(alloc: Global, case: &Case, call: u32) -> io::Result<Ended> {
    let mut store = MemStore::new(alloc);
    let mut sink = MemSink::new(alloc);
    over_sink(alloc, case, call, &mut store, &mut sink)
}

/// Whether each call on the sink ends the run, up to the first that the run doesn't make.
fn ends_at_sink_calls(alloc: Global, case: &Case) -> io::Result<bool> {
    for call in 1..=MOST_CALLS {
        match at_sink_call(alloc, case, call)? {
            Ended::AtCall => {}
            Ended::Whole => return Ok(call > 1),
            Ended::Otherwise => return Ok(false),
        }
    }
    Ok(false)
}

/// Whether the run ends as it should if each call in turn fails.
pub fn ends_at_each_fault(alloc: Global, case: &Case) -> io::Result<bool> {
    Ok(ends_at_store_calls(alloc, case)? && ends_at_sink_calls(alloc, case)?)
}

/// Whether a run over an empty store ends as it should if its put of OUT (put 1) or of CERT is torn after this many
/// bytes. `before` is another empty store, for the files before the run.
fn over_torn(
    alloc: Global,
    case: &Case,
    torn: (u32, u32),
    before: &mut MemStore,
    store: &mut MemStore,
) -> io::Result<bool> {
    let (put, bytes) = torn;
    case.fill(before)?;
    case.fill(store)?;
    kept(store.tear(put, bytes))?;
    let mut sink = MemSink::new(alloc);
    let status = case.run_over(alloc, store, &mut sink);
    let name = if put == 1 { "out" } else { "cert" };
    let length = store.file(name).map(|left| left.len());
    Ok(
        status == STORE_FAULT
            && sink.bytes() == STORE_LINE
            && length == Some(bytes as usize)
            && case.is_begun(before, store)
            && (put == 1) == (store.file("cert") == before.file("cert")),
    )
}

/// Whether a run ends as it should if its put of OUT (put 1) or of CERT is torn after this many bytes.
fn ends_torn(alloc: Global, case: &Case, put: u32, bytes: u32) -> io::Result<bool> {
    let mut before = MemStore::new(alloc);
    let mut store = MemStore::new(alloc);
    over_torn(alloc, case, (put, bytes), &mut before, &mut store)
}

/// Whether a run over an empty store and sink ends as it should if its put on the sink is torn after this many bytes.
fn over_torn_line(
    alloc: Global,
    case: &Case,
    bytes: u32,
    store: &mut MemStore,
    sink: &mut MemSink,
) -> io::Result<bool> {
    case.fill(store)?;
    kept(sink.tear(1, bytes))?;
    let status = case.run_over(alloc, store, sink);
    let begun = case.wanted().starts_with(sink.bytes()) && sink.bytes().len() == bytes as usize;
    Ok(status == SINK_FAULT && begun && case.is_whole(store))
}

/// Whether a run ends as it should if its put on the sink is torn after this many bytes.
fn ends_torn_line(alloc: Global, case: &Case, bytes: u32) -> io::Result<bool> {
    let mut store = MemStore::new(alloc);
    let mut sink = MemSink::new(alloc);
    over_torn_line(alloc, case, bytes, &mut store, &mut sink)
}

/// Whether a run ends as it should if its put with that number, of OUT, CERT or the line, is torn after any number of
/// its bytes.
fn ends_at_tears_of(alloc: Global, case: &Case, put: u32, length: usize) -> io::Result<bool> {
    for bytes in 0..=u32::try_from(length).unwrap_or(0) {
        let ends = if put == 3 {
            ends_torn_line(alloc, case, bytes)?
        } else {
            ends_torn(alloc, case, put, bytes)?
        };
        if !ends {
            return Ok(false);
        }
    }
    Ok(true)
}

/// Whether the run ends as it should if each put is torn at each of its bytes.
pub fn ends_at_each_tear(alloc: Global, case: &Case) -> io::Result<bool> {
    Ok(
        ends_at_tears_of(alloc, case, 1, case.out_length())?
            && ends_at_tears_of(alloc, case, 2, case.cert_length())?
            && ends_at_tears_of(alloc, case, 3, case.wanted().len())?,
    )
}
