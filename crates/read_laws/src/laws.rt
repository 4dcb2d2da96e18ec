//! Laws of reading and of resolution, which a normaliser's caller cites.
ghost use Rattle.read_laws.specs.Laws.{QueriesAreBuilt, ReadIsBuilt, ResolvingKeepsBuilt};

/// A text's query has names and places as the grammar gives them (XQuery 1.0, sections 3.7.3 and 4.14).
pub fn queries_are_built()
    ensures { QueriesAreBuilt }
{}

/// Resolution of names leaves them so (own rule).
pub fn resolving_keeps_built()
    ensures { ResolvingKeepsBuilt }
{}

/// Both together: so has the resolved query of a text (XQuery 1.0, sections 3.7.3 and 4.14).
pub fn read_is_built()
    ensures { ReadIsBuilt }
{}
