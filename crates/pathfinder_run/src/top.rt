//! The call that the program makes.
ghost use Rattle.std.specs.Prelude.{ℕ, ◌≡◌, ◌≤◌, ◌∷◌, List, length, map, true, string_bytes};
ghost use Rattle.xq_base.specs.Distinct.{AllDiffer};
ghost use Rattle.doc_table.specs.OtherTexts.{Grows};
ghost use Rattle.doc_table.specs.Given.{trees_given};
ghost use Rattle.doc_table.specs.Stores.{AreGiven};
ghost use Rattle.doc_table.specs.Documents.{documents_in};
ghost use Rattle.query_engine.specs.Answering.{IsCompiled};
ghost use Rattle.query_engine.specs.Evaluated.{CanEvaluate};
ghost use Rattle.pathfinder_run.specs.Words.{AreWords, most_documents};
ghost use Rattle.pathfinder_run.specs.declared.status.Status.TheVariants.{Usage};
ghost use Rattle.pathfinder_run.specs.Lines.{Said, line};
ghost use Rattle.pathfinder_run.specs.Inputs.{RisesWith};
ghost use Rattle.pathfinder_run.specs.Top.{TextCompiled, ValueGiven, Replies, Answered, Exactly, Quiet, HasReason, UsageExactly, CountExactly, AsksFirst, AsksAtMost};

use crate::diagnosis::say;
use crate::inputs::{load_documents, read_file};
use crate::status::Status;
use crate::words::split_words;
use doc_table::Store;
use io_edge::{Shelf, Sink, write_whole};
use query_engine::{AnswerFault, CompileFault, answer, compile};
use std::alloc::Global;
use xq_base::{HashKeys, Pool};
use xq_types::Typed;

/// The most bytes of a query file.
const QUERY_LIMIT: usize = 1_048_576;

/// The place of the query's word.
const QUERY_WORD: usize = 1;

/// The most documents.
const MOST_DOCUMENTS: usize = 16;

/// A query's text, checked by the static rules.
fn compile_text(alloc: Global, text: &[u8], pool: &mut Pool) -> Result<Typed, Status>
    ensures later { Grows pool.old pool.new }
    ensures compiled { TextCompiled text.now pool.new result }
{
    match compile(alloc, text, pool) {
        Ok(typed) => Ok(typed),
        Err(CompileFault::NoMemory) => Err(Status::NoMemory),
        Err(CompileFault::Refused { code, offset }) => Err(Status::Static { code, offset }),
    }
}

/// The bytes of a query's value over the documents of a store, or why there are none.
fn answer_over(alloc: Global, query: &Typed, store: &Store, pool: &Pool) -> Result<Vec<u8>, Status>
    requires evaluated { CanEvaluate pool.now query.now }
    requires trees { trees_given (length pool.now) store.now ≡ true }
    requires names { AreGiven pool.now store.now.docs }
    ensures { (text : List ℕ) → IsCompiled text pool.now query.now → ValueGiven (documents_in pool.now store.now) text result }
{
    match answer(alloc, query, store, pool) {
        Ok(bytes) => Ok(bytes),
        Err(AnswerFault::NoMemory) => Err(Status::NoMemory),
        Err(AnswerFault::Dynamic { code, offset }) => Err(Status::Dynamic { code, offset }),
    }
}

/// The bytes of the answer of a query over the documents of some names, or why there are none.
fn reply<F: Shelf>(
    alloc: Global,
    keys: HashKeys,
    query: &str,
    names: &[String],
    shelf: &mut F,
) -> Result<Vec<u8>, Status>
    requires few { length names.now ≤ most_documents }
    requires different { AllDiffer (map string_bytes names.now) }
    ensures later { F.faults shelf.old ≤ F.faults shelf.new }
    ensures cause { RisesWith (F.faults shelf.old) (F.faults shelf.new) result }
    ensures files { F.files shelf.new ≡ F.files shelf.old }
    ensures asked { AsksFirst (F.asked shelf.old) (F.asked shelf.new) (query.now ∷ map string_bytes names.now) }
    ensures replies { Replies (F.files shelf.old) query.now (map string_bytes names.now) result }
{
    let text = match read_file(alloc, shelf, query, QUERY_WORD, QUERY_LIMIT) {
        Ok(text) => text,
        Err(status) => return Err(status),
    };
    let mut pool = Pool::new(alloc, keys);
    let typed = match compile_text(alloc, text.as_slice(), &mut pool) {
        Ok(typed) => typed,
        Err(status) => return Err(status),
    };
    let mut store = Store::new(alloc);
    match load_documents(alloc, names, shelf, &mut pool, &mut store) {
        Ok(()) => answer_over(alloc, &typed, &store, &pool),
        Err(status) => Err(status),
    }
}

/// Answers a query over the documents of some names.
fn run<F: Shelf, O: Sink>(
    alloc: Global,
    keys: HashKeys,
    query: &str,
    names: &[String],
    shelf: &mut F,
    out: &mut O,
) -> Status
    requires different { AllDiffer (map string_bytes names.now) }
    ensures form { result ≡ Usage → ⊥ }
    ensures count { CountExactly (map string_bytes names.now) result }
    ensures answered { Answered (F.files shelf.old) query.now (map string_bytes names.now) (O.taken out.old) (O.taken out.new) result }
    ensures quiet { Quiet (O.taken out.old) (O.taken out.new) result }
    ensures reason { HasReason (F.faults shelf.old) (F.faults shelf.new) (O.faults out.old) (O.faults out.new) result }
    ensures files { F.files shelf.new ≡ F.files shelf.old }
    ensures asked { AsksFirst (F.asked shelf.old) (F.asked shelf.new) (query.now ∷ map string_bytes names.now) }
{
    if names.len() > MOST_DOCUMENTS {
        return Status::TooLarge { word: None };
    }
    let bytes = match reply(alloc, keys, query, names, shelf) {
        Ok(bytes) => bytes,
        Err(status) => return status,
    };
    match write_whole(out, bytes.as_slice()) {
        Ok(()) => Status::Done,
        Err(_) => Status::WriteFault,
    }
}

/// Answers the words.
fn status_of<F: Shelf, O: Sink>(
    alloc: Global,
    keys: HashKeys,
    words: &[String],
    shelf: &mut F,
    out: &mut O,
) -> Status
    ensures usage { UsageExactly (map string_bytes words.now) result }
    ensures count { (query : List ℕ) (names : List (List ℕ)) → AreWords (map string_bytes words.now) query names → CountExactly names result }
    ensures answered { (query : List ℕ) (names : List (List ℕ)) → AreWords (map string_bytes words.now) query names → Answered (F.files shelf.old) query names (O.taken out.old) (O.taken out.new) result }
    ensures exactly { Exactly (F.files shelf.old) (map string_bytes words.now) result }
    ensures quiet { Quiet (O.taken out.old) (O.taken out.new) result }
    ensures reason { HasReason (F.faults shelf.old) (F.faults shelf.new) (O.faults out.old) (O.faults out.new) result }
    ensures files { F.files shelf.new ≡ F.files shelf.old }
    ensures asked { AsksAtMost (map string_bytes words.now) (F.asked shelf.old) (F.asked shelf.new) }
{
    match split_words(words) {
        None => Status::Usage,
        Some((query, names)) => run(alloc, keys, query, names, shelf, out),
    }
}

/// Answers a command line: the words without the program's name, the files that they name, the sink of
/// the answer and the sink of the diagnosis. Words in form are `run`, the name of a query's file, and the
/// names of at most 16 documents, no two of which are the same. The keys are those of the hash by which texts
/// are found; no answer hangs on them.
///
/// Done: the static rules accept the query, each document is read, no evaluation fails, and `out` has
/// taken exactly the serialisation of the query's value. Static: the static rules refuse it. Dynamic:
/// this is its first failure. DocRefused: this document is the first that isn't read, and why.
/// ReadFault and WriteFault: the shelf or `out` counted a fault in this call. TooLarge: the query's file
/// has more than 1,048,576 bytes, a document's more than 67,108,864, or there are more than 16 documents.
/// Usage: exactly where the words aren't in form. NoMemory: want of memory. The query's file comes
/// first, then its static rules, then the documents in their order. `out` has taken nothing but under
/// Done and WriteFault, where it has taken a prefix of the answer; `diag` has taken the status's line, or
/// a prefix where it counted a fault (own rule).
pub fn pathfinder<F: Shelf, O: Sink, E: Sink>(
    alloc: Global,
    keys: HashKeys,
    words: &[String],
    shelf: &mut F,
    out: &mut O,
    diag: &mut E,
) -> Status
    ensures usage { UsageExactly (map string_bytes words.now) result }
    ensures count { (query : List ℕ) (names : List (List ℕ)) → AreWords (map string_bytes words.now) query names → CountExactly names result }
    ensures answered { (query : List ℕ) (names : List (List ℕ)) → AreWords (map string_bytes words.now) query names → Answered (F.files shelf.old) query names (O.taken out.old) (O.taken out.new) result }
    ensures exactly { Exactly (F.files shelf.old) (map string_bytes words.now) result }
    ensures quiet { Quiet (O.taken out.old) (O.taken out.new) result }
    ensures reason { HasReason (F.faults shelf.old) (F.faults shelf.new) (O.faults out.old) (O.faults out.new) result }
    ensures files { F.files shelf.new ≡ F.files shelf.old }
    ensures asked { AsksAtMost (map string_bytes words.now) (F.asked shelf.old) (F.asked shelf.new) }
    ensures line { Said (E.faults diag.old) (E.faults diag.new) (E.taken diag.old) (E.taken diag.new) (line (map string_bytes words.now) result) }
{
    let status = status_of(alloc, keys, words, shelf, out);
    say(diag, words, status);
    status
}
