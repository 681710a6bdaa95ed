//! The law of documents. The function does nothing: its contract is the law.

ghost use Rattle.core_extract.specs.Claims.{DocumentLaw};

/// What the document of a conflict says of a model that is taken is true.
pub fn document_law()
    ensures { DocumentLaw }
{}
