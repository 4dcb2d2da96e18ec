//! The limits of documents that are read.

/// The most bytes of a document (own rule).
pub const DOCUMENT_LIMIT: usize = 67_108_864;

/// The greatest level of a node, the document's being 0 (own rule).
pub const LEVEL_LIMIT: u32 = 65_535;
