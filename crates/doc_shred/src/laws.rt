//! Laws about documents, which hold of every list of bytes.
ghost use Rattle.std.specs.Prelude.{◌≡◌, ℕ, List};
ghost use Rattle.doc_table.specs.Tree.{Tree};
ghost use Rattle.doc_shred.specs.Content.{Text};
ghost use Rattle.doc_shred.specs.Document.{IsDocument};

/// Bytes have at most one tree.
pub fn one_tree()
    ensures { (bytes : List ℕ) (t u : Tree Text) → IsDocument bytes t → IsDocument bytes u → t ≡ u }
{}
