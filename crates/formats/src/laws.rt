// Laws of the formats: each function does nothing, and its contract is one law. The laws of documents and of queries are not one law
// over a trait: a document is read with a list of items and a query without, and their ranges are different facts.
ghost use Rattle.formats.specs.Laws.{DocumentsReadBack, DocumentsExact, QueriesReadBack, QueriesExact, ListsScalings};
ghost use Rattle.formats.specs.Queries.{Query};
ghost use Rattle.formats.specs.Items.{scalings};

/// A document of at most 32 levels and 65,536 bytes, in range, reads back from its written bytes.
pub fn documents_read_back()
    ensures { DocumentsReadBack 32 65536 }
{}

/// Bytes that read as a document are its written bytes, and it is in range.
pub fn documents_exact()
    ensures { DocumentsExact 32 65536 }
{}

/// A well-formed query of at most 17 levels and 1,024 bytes reads back from its written bytes.
pub fn queries_read_back()
    ensures { QueriesReadBack 17 1024 }
{}

/// Bytes that read as a query are its written bytes, and it is well formed.
pub fn queries_exact()
    ensures { QueriesExact 17 1024 }
{}

/// A run tests the SCALE commands of its query from left to right, each where it stands in the bytes, with its item.
pub fn scalings_are_listed_from_left_to_right()
    ensures { (q : Query) → ListsScalings (scalings 0) q }
{}
