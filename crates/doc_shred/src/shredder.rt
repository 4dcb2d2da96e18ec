//! From the bytes of a document to its fragment.
ghost use Rattle.std.specs.Prelude.{◌≡◌, ◌≤◌, true, IfOk, Err, length};
ghost use Rattle.doc_table.specs.Tree.{Tree, with_texts};
ghost use Rattle.doc_table.specs.Given.{tree_given};
ghost use Rattle.doc_table.specs.Axes.{id_eq};
ghost use Rattle.doc_table.specs.Spine.{is_empty_id};
ghost use Rattle.doc_table.specs.DocumentTrees.{is_document_tree};
ghost use Rattle.doc_shred.specs.declared.refusal.ShredFault.TheVariants.{NotWellFormed, Unsupported, TooDeep};
ghost use Rattle.doc_shred.specs.Content.{Text};
ghost use Rattle.doc_shred.specs.Limits.{document_limit};
ghost use Rattle.doc_shred.specs.Document.{IsDocument, IsUnsupported, IsTooDeep};
ghost use Rattle.doc_shred.specs.Standing.{IsLater};

use crate::depth::is_too_deep;
use crate::document::document;
use crate::lines::{join_lines, without_mark};
use crate::refusal::ShredFault;
use doc_table::{Fragment, FragmentBuilder};
use std::alloc::Global;
use xq_base::Pool;

/// Reads an XML document (XML 1.0, fifth edition) as a fragment, whose texts are numbered by the
/// pool.
///
/// The bytes are UTF-8, with or without a byte order mark. The tree has the root element, and the
/// comments and instructions outside it. Errors: `Unsupported` where a front of the document names
/// another encoding than UTF-8 or US-ASCII, or comes to an internal subset; else `NotWellFormed`
/// where the bytes are no document; else `TooDeep` where a node's level passes 65,535; and
/// `NoMemory`. After a refusal the pool may have more texts.
pub fn shred(alloc: Global, bytes: &[u8], pool: &mut Pool) -> Result<Fragment, ShredFault>
    requires { length bytes.now ≤ document_limit }

    // Earlier numbers keep their texts.
    ensures later { IsLater pool.old pool.new }

    // The fragment is the tree that the bytes have.
    ensures tree { IfOk result (λ fragment. IsDocument bytes.now (with_texts pool.new fragment)) }
    ensures level { IfOk result (λ fragment. ¬ IsTooDeep (with_texts pool.new fragment)) }
    ensures supported { IfOk result (λ _. ¬ IsUnsupported bytes.now) }

    // One element and no text stand among the children of the document node.
    ensures document { IfOk result (λ fragment. is_document_tree id_eq is_empty_id fragment ≡ true) }

    // The pool gave the numbers of its texts.
    ensures given { IfOk result (λ fragment. tree_given (length pool.new) fragment ≡ true) }

    // Each refusal has its cause.
    ensures unsupported { result ≡ Err Unsupported → IsUnsupported bytes.now }
    ensures not_well_formed { result ≡ Err NotWellFormed → (¬ IsUnsupported bytes.now) × ((tree : Tree Text) → ¬ IsDocument bytes.now tree) }
    ensures too_deep { result ≡ Err TooDeep → (¬ IsUnsupported bytes.now) × ((tree : Tree Text) × IsDocument bytes.now tree × IsTooDeep tree) }
{
    let Ok(text) = join_lines(alloc, without_mark(bytes)) else {
        return Err(ShredFault::NoMemory);
    };
    let mut builder = FragmentBuilder::new(alloc);
    if let Err(error) = document(alloc, pool, &mut builder, text.as_slice()) {
        return Err(error);
    }
    builder.close();
    let fragment = builder.finish();
    fragment.validity();
    if is_too_deep(&fragment) {
        return Err(ShredFault::TooDeep);
    }
    Ok(fragment)
}
