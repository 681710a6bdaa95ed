//! Laws of the lines of certificates, for texts that are made of them. Each function does nothing; its contract is the
//! law.

ghost use Rattle.certificate_lines.specs.Laws.{OneValue, OneStep, OneDerivation, NoStep, NoDerivation};
ghost use Rattle.certificate_lines.specs.Laws.{StepsLead, DerivationLeads};

/// A line tells one value of a name, leads to one state, and continues a derivation in one way.
pub fn one_line_law()
    ensures value { OneValue }
    ensures step { OneStep }
    ensures derivation { OneDerivation }
{}

/// `proof` makes no step, and `end` continues no derivation.
pub fn word_law()
    ensures step { NoStep }
    ensures derivation { NoDerivation }
{}

/// A ledger is a step longer by a line that makes one, and a derivation by a line that continues it.
pub fn certificate_law()
    ensures steps { StepsLead }
    ensures derivation { DerivationLeads }
{}
