//! Laws of the model. The functions do nothing: their contracts are the laws.

ghost use Rattle.opb_model.specs.Laws.{TextSays, SolutionsAreThose};

/// The text of a file's model says exactly that model.
pub fn text_law()
    ensures { TextSays }
{}

/// The solutions of a file's model are exactly the assignments that satisfy the file, each once, with what they cost.
pub fn solutions_law()
    ensures { SolutionsAreThose }
{}
