//! The files of a call: the query's text, and the documents as the fragments of a store.
ghost use Rattle.std.specs.Prelude.{◌≡◌, ◌+◌, ◌<◌, ◌≤◌, true, length, map, take, get_or, string_bytes, [], ◌∷◌, IfErr, OnOk};
ghost use Rattle.xq_base.specs.Distinct.{AllDiffer};
ghost use Rattle.io_edge.specs.Causes.{Rose};
ghost use Rattle.io_edge.specs.Shelves.{MayAppendName};
ghost use Rattle.doc_table.specs.OtherTexts.{Grows};
ghost use Rattle.doc_table.specs.Axes.{id_eq};
ghost use Rattle.doc_table.specs.Spine.{is_empty_id};
ghost use Rattle.doc_table.specs.DocumentTrees.{is_document_tree};
ghost use Rattle.pathfinder_run.specs.Words.{first_place, most_documents};
ghost use Rattle.doc_shred.specs.Limits.{document_limit};
ghost use Rattle.pathfinder_run.specs.Inputs.{FileRead, Shreds, IsKept, IsNew, Loaded, Loads, DocumentFails, RisesWith};
ghost use Rattle.pathfinder_run.specs.Top.{AsksAll, AsksFirst};

use crate::status::{DocFault, Status};
use doc_shred::{DOCUMENT_LIMIT, ShredFault, shred};
use doc_table::{Fragment, Store};
use io_edge::{ReadErr, Shelf, read_whole};
use std::alloc::Global;
use xq_base::Pool;

/// The place of the first document's word.
const FIRST_DOCUMENT: usize = 2;

/// The bytes of the file that a word names, or why there are none.
pub fn read_file<F: Shelf>(
    alloc: Global,
    shelf: &mut F,
    name: &str,
    word: usize,
    limit: usize,
) -> Result<Vec<u8>, Status>
    ensures later { F.faults shelf.old ≤ F.faults shelf.new }
    ensures cause { RisesWith (F.faults shelf.old) (F.faults shelf.new) result }
    ensures files { F.files shelf.new ≡ F.files shelf.old }
    ensures asked { MayAppendName (F.asked shelf.old) (F.asked shelf.new) name.now }
    ensures appended { OnOk result (AsksAll (F.asked shelf.old) (F.asked shelf.new) (name.now ∷ [])) }
    ensures read { FileRead (F.files shelf.old) limit name.now word result }
{
    match read_whole(alloc, shelf, name, limit) {
        Ok(bytes) => Ok(bytes),
        Err(ReadErr::ReadFault) => Err(Status::ReadFault { word }),
        Err(ReadErr::TooLarge) => Err(Status::TooLarge { word: Some(word) }),
        Err(ReadErr::NoMemory) => Err(Status::NoMemory),
    }
}

/// The fragment of a document's bytes, or why there is none.
fn shred_document(
    alloc: Global,
    bytes: &[u8],
    word: usize,
    pool: &mut Pool,
) -> Result<Fragment, Status>
    requires { length bytes.now ≤ document_limit }
    ensures later { Grows pool.old pool.new }
    ensures shreds { Shreds bytes.now word pool.new result }
{
    match shred(alloc, bytes, pool) {
        Ok(fragment) => Ok(fragment),
        Err(ShredFault::NotWellFormed) => Err(Status::DocRefused {
            word,
            kind: DocFault::NotWellFormed,
        }),
        Err(ShredFault::Unsupported) => Err(Status::DocRefused {
            word,
            kind: DocFault::Unsupported,
        }),
        Err(ShredFault::TooDeep) => Err(Status::DocRefused {
            word,
            kind: DocFault::TooDeep,
        }),
        Err(ShredFault::NoMemory) => Err(Status::NoMemory),
    }
}

/// Adds a document to a store. Its one error is want of memory.
fn keep_document(
    name: &str,
    fragment: Fragment,
    pool: &mut Pool,
    store: &mut Store,
) -> Result<(), Status>
    requires new { IsNew pool.old store.old name.now }
    requires document { is_document_tree id_eq is_empty_id fragment ≡ true }
    requires few { length store.old.docs < most_documents }
    ensures later { Grows pool.old pool.new }
    ensures kept { IsKept fragment name.now store.old pool.new store.new result }
{
    let id = match pool.intern(name) {
        Ok(id) => id,
        Err(_) => return Err(Status::NoMemory),
    };
    match store.add_doc(id, fragment) {
        Ok(_) => Ok(()),
        Err(_) => Err(Status::NoMemory),
    }
}

/// Adds the document of the k-th name to a store that has those before it.
fn add_document<F: Shelf>(
    alloc: Global,
    names: &[String],
    k: usize,
    shelf: &mut F,
    pool: &mut Pool,
    store: &mut Store,
) -> Result<(), Status>
    requires there { k < length names.now }
    requires few { length names.now ≤ most_documents }
    requires different { AllDiffer (map string_bytes names.now) }
    requires loaded { Loaded (F.files shelf.old) (take k (map string_bytes names.now)) pool.old store.old }
    ensures later { F.faults shelf.old ≤ F.faults shelf.new }
    ensures cause { RisesWith (F.faults shelf.old) (F.faults shelf.new) result }
    ensures grown { Grows pool.old pool.new }
    ensures files { F.files shelf.new ≡ F.files shelf.old }
    ensures asked { MayAppendName (F.asked shelf.old) (F.asked shelf.new) (get_or (map string_bytes names.now) k []) }
    ensures appended { OnOk result (AsksAll (F.asked shelf.old) (F.asked shelf.new) (get_or (map string_bytes names.now) k [] ∷ [])) }
    ensures loaded { OnOk result (Loaded (F.files shelf.old) (take (k + 1) (map string_bytes names.now)) pool.new store.new) }
    ensures fails { IfErr result (λ status. DocumentFails (F.files shelf.old) (get_or (map string_bytes names.now) k []) (k + first_place) status) }
{
    let name = names[k].as_str();
    let word = k + FIRST_DOCUMENT;
    let bytes = match read_file(alloc, shelf, name, word, DOCUMENT_LIMIT) {
        Ok(bytes) => bytes,
        Err(status) => return Err(status),
    };
    let fragment = match shred_document(alloc, bytes.as_slice(), word, pool) {
        Ok(fragment) => fragment,
        Err(status) => return Err(status),
    };
    keep_document(name, fragment, pool, store)
}

/// Reads the documents of some names into an empty store, in the order of the names.
pub fn load_documents<F: Shelf>(
    alloc: Global,
    names: &[String],
    shelf: &mut F,
    pool: &mut Pool,
    store: &mut Store,
) -> Result<(), Status>
    requires few { length names.now ≤ most_documents }
    requires different { AllDiffer (map string_bytes names.now) }
    requires empty { store.old.docs ≡ [] }
    requires none_built { store.old.built ≡ [] }
    ensures later { F.faults shelf.old ≤ F.faults shelf.new }
    ensures cause { RisesWith (F.faults shelf.old) (F.faults shelf.new) result }
    ensures grown { Grows pool.old pool.new }
    ensures files { F.files shelf.new ≡ F.files shelf.old }
    ensures asked { AsksFirst (F.asked shelf.old) (F.asked shelf.new) (map string_bytes names.now) }
    ensures loads { Loads (F.files shelf.old) (map string_bytes names.now) pool.new store.new result }
{
    for k in 0..names.len() {
        if let Err(status) = add_document(alloc, names, k, shelf, pool, store) {
            return Err(status);
        }
    }
    Ok(())
}
