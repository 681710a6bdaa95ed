//! A law of the model. The function does nothing: its contract is the law.

ghost use Rattle.queens_model.specs.Placements.{SolutionsPlaceQueens};

/// What a solution says: there is a queen on the board in each row, and no two attack each other.
pub fn placement_law()
    ensures { SolutionsPlaceQueens }
{}
