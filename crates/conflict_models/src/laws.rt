//! Laws of the texts of models of which conflicts are asked. The function does nothing; its contract is the laws.

ghost use Rattle.conflict_models.specs.ConflictModels.{OneFault, NoFault, FaultOrWhole};

/// A text has one first fault, or says a model none of whose parts is too heavy, and never both.
pub fn fault_law()
    ensures one { OneFault }
    ensures never { NoFault }
    ensures either { FaultOrWhole }
{}
