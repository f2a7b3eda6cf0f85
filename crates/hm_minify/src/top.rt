//! The top call of the program.
ghost use Rattle.std.specs.Prelude.{◌≡◌, ◌≢◌, ◌⊎◌, Some, None, false, true, ℕ, List};
ghost use Rattle.hm_store.specs.Contents.{Sees, Tells};
ghost use Rattle.hm_store.specs.Files.{file_of};
ghost use Rattle.hm_words.specs.Words as request;
ghost use Rattle.hm_words.specs.Words.{Asked as Request, asked as asked_by, notice_in as notice_by};
ghost use Rattle.hm_minify.specs.Endings as endings;
ghost use Rattle.hm_minify.specs.Endings.{ending, is_fault};
ghost use Rattle.hm_minify.specs.Wanted.{input_of};
ghost use Rattle.hm_minify.specs.Lines.{notice_text, usage_line, store_line};
ghost use Rattle.hm_minify.specs.Outside.{Between, Prints, PrintsFront, SinkFails, StoreFails};
ghost use Rattle.hm_minify.specs.Runs as spec;
ghost use Rattle.hm_minify.specs.Sayings.{bytes_said};
ghost use Rattle.hm_minify.specs.Writes.{after_writes, IsLeft};

use crate::Status;
use crate::ended::{Printed, RunEnd, Stop};
use crate::lines::{STORE_FAULT, USAGE};
use crate::notices::notice_text;
use crate::saved::save;
use crate::work::work;
use hm_base::OwnedText;
use hm_store::{Failed, Sink, Store};
use hm_words::{Asked, Notice, WordsFault, notice_in};
use std::alloc::Global;

/// Prints a line. Gives `status`, or that the sink failed.
fn put_line<O: Sink>(out: &mut O, line: &[u8], status: Status) -> Status
    ensures { spec.PutsBytes (O.faults out.old) (O.faults out.new) (O.contents out.old) (O.contents out.new) line.now status result }
{
    match out.put(line) {
        Ok(()) => status,
        Err(Failed) => Status::SinkFault,
    }
}

/// Prints what a run has to print. Gives `answer`, or that the sink failed.
fn put_said<O: Sink>(out: &mut O, said: Printed, answer: Status) -> Status
    ensures { spec.PutsBytes (O.faults out.old) (O.faults out.new) (O.contents out.old) (O.contents out.new) (bytes_said said) answer result }
{
    match said.put(out) {
        Ok(()) => answer,
        Err(Failed) => Status::SinkFault,
    }
}

/// Writes the files, and then prints.
fn finish<S: Store, O: Sink>(store: &mut S, out: &mut O, ended: RunEnd<'_>) -> Status
    ensures { Between S.Store O.Sink store.old out.old store.new out.new (spec.Finishes ended.entry result) }
{
    match save(store, ended.outputs.as_slice()) {
        Ok(()) => put_said(out, ended.said, ended.status),
        Err(Failed) => put_line(out, STORE_FAULT, Status::StoreFault),
    }
}

/// Does what a request asks for, step by step.
fn perform_asked<S: Store, O: Sink>(
    alloc: Global,
    words: &[OwnedText],
    store: &mut S,
    out: &mut O,
) -> Status
    requires silent { notice_by words.now ≡ None }
    ensures unasked { asked_by words.now ≡ None → (store.new ≡ store.old)
        × (Between S.Store O.Sink store.old out.old store.new out.new (spec.Puts usage_line Status.Usage result) ⊎ (result ≡ Status.OutOfMemory)) }
    ensures course { Between S.Store O.Sink store.old out.old store.new out.new (spec.Course (ending words.now) (endings.IsReadableAsked (asked_by words.now)) result) }
    ensures writing { result ≡ Status.OutOfMemory → S.is_writing store.new ≡ S.is_writing store.old }
{
    match Asked::read(alloc, words) {
        Err(WordsFault::Usage) => put_line(out, USAGE, Status::Usage),
        Err(WordsFault::OutOfMemory) => Status::OutOfMemory,
        Ok(asked) => match work(alloc, &asked, store) {
            Ok(ended) => finish(store, out, ended),
            Err(Stop::Store) => put_line(out, STORE_FAULT, Status::StoreFault),
            Err(Stop::OutOfMemory) => Status::OutOfMemory,
        },
    }
}

/// Does what the arguments ask for, step by step. A notice needs neither the store nor memory.
fn perform<S: Store, O: Sink>(
    alloc: Global,
    words: &[OwnedText],
    store: &mut S,
    out: &mut O,
) -> Status
    ensures noticed { (notice : Notice) → notice_by words.now ≡ Some notice → (store.new ≡ store.old)
        × Between S.Store O.Sink store.old out.old store.new out.new (spec.Puts (notice_text notice) Status.Done result) }
    ensures unasked { asked_by words.now ≡ None → notice_by words.now ≡ None → (store.new ≡ store.old)
        × (Between S.Store O.Sink store.old out.old store.new out.new (spec.Puts usage_line Status.Usage result) ⊎ (result ≡ Status.OutOfMemory)) }
    ensures course { Between S.Store O.Sink store.old out.old store.new out.new (spec.Course (ending words.now) (endings.IsReadableAsked (asked_by words.now)) result) }
    ensures writing { result ≡ Status.OutOfMemory → S.is_writing store.new ≡ S.is_writing store.old }
{
    match notice_in(words) {
        Some(notice) => put_line(out, notice_text(notice), Status::Done),
        None => perform_asked(alloc, words, store, out),
    }
}

/// Does what the arguments ask for, and prints one line, or the lines of a tree, its JSON, or those of a notice or an
/// explanation.
pub fn run<S: Store, O: Sink>(
    alloc: Global,
    words: &[OwnedText],
    store: &mut S,
    out: &mut O,
) -> Status
    // A notice needs neither the store nor memory.
    ensures notice { (notice : Notice) → notice_by words.now ≡ Some notice → (store.new ≡ store.old) × ((result ≡ Status.Done) ⊎ (result ≡ Status.SinkFault))
        × (result ≡ Status.Done → Between S.Store O.Sink store.old out.old store.new out.new (Prints (notice_text notice))) }

    // Whether the arguments have a meaning depends on them alone. Without a meaning the store isn't used; the run may
    // also end for lack of memory.
    ensures usage { result ≡ Status.Usage → (asked_by words.now ≡ None) × (notice_by words.now ≡ None) × (store.new ≡ store.old) × Between S.Store O.Sink store.old out.old store.new out.new (Prints usage_line) }
    ensures no_meaning { asked_by words.now ≡ None → notice_by words.now ≡ None → (store.new ≡ store.old) × ((result ≡ Status.Usage) ⊎ ((result ≡ Status.SinkFault) ⊎ (result ≡ Status.OutOfMemory))) }

    // An answer is the ending that follows from the arguments and the files. If no call failed, the only other outcome
    // is lack of memory.
    ensures answer { is_fault result ≡ false → Between S.Store O.Sink store.old out.old store.new out.new (spec.Ends words.now result) }
    ensures complete { Between S.Store O.Sink store.old out.old store.new out.new (λ before after.
        (StoreFails before after → ⊥) → (SinkFails before after → ⊥) → (result ≡ Status.OutOfMemory) ⊎ spec.Ends words.now result before after) }

    // If no call on the store failed, all files of the ending are written. In any case a prefix of them is, each
    // earlier one whole, and no other file is ever changed.
    ensures whole { Between S.Store O.Sink store.old out.old store.new out.new (λ before after.
        (StoreFails before after → ⊥) → result ≢ Status.OutOfMemory
        → Sees before.files (λ seen. after.files ≡ after_writes before.files (ending words.now seen).writes)) }
    ensures left { Between S.Store O.Sink store.old out.old store.new out.new (λ before after.
        Sees before.files (λ seen. IsLeft before.files (ending words.now seen).writes after.files)) }
    ensures others { Between S.Store O.Sink store.old out.old store.new out.new (λ before after.
        (name : List ℕ) → request.has (endings.asked_outputs (asked_by words.now)) name ≡ false
        → file_of after.files name ≡ file_of before.files name) }

    // A fault of the store: a call failed, or a file isn't there. The line for it is printed.
    ensures store_cause { result ≡ Status.StoreFault → Between S.Store O.Sink store.old out.old store.new out.new (λ before after.
        StoreFails before after ⊎ Tells before.files (λ seen. (ending words.now seen).status ≡ Status.StoreFault)) }
    ensures store_line { result ≡ Status.StoreFault → Between S.Store O.Sink store.old out.old store.new out.new (Prints store_line) }

    // A fault of the sink: a call failed, and a prefix of the line was printed, either that of the ending or that of a
    // fault of the store.
    ensures sink_cause { result ≡ Status.SinkFault → Between S.Store O.Sink store.old out.old store.new out.new SinkFails }
    ensures sink_front { result ≡ Status.SinkFault → Between S.Store O.Sink store.old out.old store.new out.new (λ before after.
        (StoreFails before after × PrintsFront store_line before after) ⊎ Sees before.files (λ seen. PrintsFront (ending words.now seen).line before after)) }

    // A run can lack memory only before a file is opened for writing.
    ensures memory { result ≡ Status.OutOfMemory → Between S.Store O.Sink store.old out.old store.new out.new (λ before after.
        (after.files ≡ before.files) × (after.printed ≡ before.printed) × (S.is_writing store.new ≡ S.is_writing store.old)) }

    // The headline: the text of the wanted tree is the shortest one and is certified.
    ensures minified { (asked : Request) (output cert : List ℕ) → asked_by words.now ≡ Some asked → request.is_fragment asked.origin ≡ false → asked.work ≡ request.minifies output cert
        → result ≡ Status.Done → Between S.Store O.Sink store.old out.old store.new out.new (spec.HasMinified asked output cert) }

    // The same for a fragment: what is written is a fragment with the wanted tree, and no fragment that spells it is
    // shorter.
    ensures fragment_minified { (asked : Request) (output cert : List ℕ) → asked_by words.now ≡ Some asked → request.is_fragment asked.origin ≡ true → asked.work ≡ request.minifies output cert
        → result ≡ Status.Done → Between S.Store O.Sink store.old out.old store.new out.new (spec.HasMinifiedFragment asked output cert) }

    // The same for the tree of JSON.
    ensures json_minified { (asked : Request) (table json output cert : List ℕ) → asked_by words.now ≡ Some asked → asked.origin ≡ request.json_at table json → asked.work ≡ request.minifies output cert
        → result ≡ Status.Done → Between S.Store O.Sink store.old out.old store.new out.new (spec.HasMinifiedJson asked json output cert) }

    // The wanted tree is settled, and what is written of it can be read. So a check of that with the same page says yes
    // (`laws::minified_is_checked`).
    ensures readable { (asked : Request) → asked_by words.now ≡ Some asked → result ≡ Status.Done
        → Sees (S.files store.old) (λ seen. endings.IsReadable asked (input_of asked seen)) }

    // A yes of the checker implies the bound, for text and prices from any source. A no names the first condition that
    // fails.
    ensures checked { (asked : Request) (output cert : List ℕ) → asked_by words.now ≡ Some asked → request.is_fragment asked.origin ≡ false → asked.work ≡ request.checks output cert
        → result ≡ Status.Done → Between S.Store O.Sink store.old out.old store.new out.new (spec.HasChecked asked output) }
    ensures fragment_checked { (asked : Request) (output cert : List ℕ) → asked_by words.now ≡ Some asked → request.is_fragment asked.origin ≡ true → asked.work ≡ request.checks output cert
        → result ≡ Status.Done → Between S.Store O.Sink store.old out.old store.new out.new (spec.HasCheckedFragment asked output) }
    ensures denied { (asked : Request) → asked_by words.now ≡ Some asked → result ≡ Status.No
        → Between S.Store O.Sink store.old out.old store.new out.new (spec.HasDenied asked) }

    // The wanted tree is printed.
    ensures shown { (asked : Request) → asked_by words.now ≡ Some asked → asked.work ≡ request.shows → result ≡ Status.Done
        → Between S.Store O.Sink store.old out.old store.new out.new (spec.HasShown asked) }

    // The tree is printed as JSON.
    ensures told_json { (asked : Request) → asked_by words.now ≡ Some asked → asked.work ≡ request.tells_json → result ≡ Status.Done
        → Between S.Store O.Sink store.old out.old store.new out.new (spec.HasToldJson asked) }

    // The page that `measure` makes is written in the fewest bytes and checked. `measure` has no other answer, except
    // that the table is refused.
    ensures measured { (asked : Request) → asked_by words.now ≡ Some asked → asked.work ≡ request.measures → result ≡ Status.Done
        → Between S.Store O.Sink store.old out.old store.new out.new (spec.HasMeasured asked) }
    ensures always_measured { (asked : Request) → asked_by words.now ≡ Some asked → asked.work ≡ request.measures
        → is_fault result ≡ false → (result ≡ Status.TableRefused) ⊎ (result ≡ Status.Done) }

    // A refused page is explained: line and column of its first offending place, the rule, and the line with a caret
    // below the place.
    ensures explained { (asked : Request) (table page : List ℕ) → asked_by words.now ≡ Some asked → asked.origin ≡ request.page_at table page → asked.work ≡ request.explains
        → result ≡ Status.PageRefused → Between S.Store O.Sink store.old out.old store.new out.new (spec.HasExplained asked page) }

    // For a page that isn't refused, `explain` prints how short its tree can be written.
    ensures settled { (asked : Request) (table page : List ℕ) → asked_by words.now ≡ Some asked → asked.origin ≡ request.page_at table page → asked.work ≡ request.explains
        → result ≡ Status.Done → Between S.Store O.Sink store.old out.old store.new out.new (spec.HasSettled asked page) }

    // In every command, a page is refused at its first offending place with its rule, and JSON and a table for their
    // first fault.
    ensures refused_page { (asked : Request) → asked_by words.now ≡ Some asked → endings.is_explained asked.origin asked.work ≡ false → result ≡ Status.PageRefused
        → Between S.Store O.Sink store.old out.old store.new out.new (spec.HasRefusedPage asked) }
    ensures refused_json { (asked : Request) → asked_by words.now ≡ Some asked → result ≡ Status.JsonRefused
        → Between S.Store O.Sink store.old out.old store.new out.new (spec.HasRefusedJson asked) }
    ensures refused_table { (asked : Request) → asked_by words.now ≡ Some asked → result ≡ Status.TableRefused
        → Between S.Store O.Sink store.old out.old store.new out.new (spec.HasRefusedTable asked) }
{
    perform(alloc, words, store, out)
}
