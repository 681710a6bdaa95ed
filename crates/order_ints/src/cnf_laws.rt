//! Laws of the definitions on clauses, each the contract of a function that does nothing.

ghost use Rattle.order_ints.specs.CnfLaws.{LitNegation, AtomNegation, LitAgreement, AtomAgreement, ClauseAgreement};
ghost use Rattle.order_ints.specs.CnfLaws.{ClausesAgreement, AtomClauseAgreement, AtomClausesAgreement, ClauseOfParts};
ghost use Rattle.order_ints.specs.CnfLaws.{AtomClauseOfParts, ClausesOfParts, AtomClausesOfParts, ResolvedTruth};
ghost use Rattle.order_ints.specs.CnfLaws.{EmptyView, ResolvedRange, GreaterBound, OrderedTruth, OrderedRange};
ghost use Rattle.order_ints.specs.CnfLaws.{OrderedForm};

/// A negation has the negated truth.
pub fn negation_law()
    ensures literal { LitNegation }
    ensures atom { AtomNegation }
{}

/// Truth depends on the variables that occur alone.
pub fn agreement_law()
    ensures literal { LitAgreement }
    ensures atom { AtomAgreement }
    ensures clause { ClauseAgreement }
    ensures clauses { ClausesAgreement }
    ensures atom_clause { AtomClauseAgreement }
    ensures atom_clauses { AtomClausesAgreement }
{}

/// A clause of two parts is their disjunction, and a list of clauses the conjunction of its parts.
pub fn parts_law()
    ensures clause { ClauseOfParts }
    ensures atom_clause { AtomClauseOfParts }
    ensures clauses { ClausesOfParts }
    ensures atom_clauses { AtomClausesOfParts }
{}

/// A view keeps truth and range, and the empty view changes nothing.
pub fn view_law()
    ensures truth { ResolvedTruth }
    ensures range { ResolvedRange }
    ensures empty { EmptyView }
{}

/// What is below a bound is below each greater one.
pub fn bound_law()
    ensures { GreaterBound }
{}

/// Clauses put in order are as true as they were, keep their variables' bound, and have variables that
/// ascend and no clause twice.
pub fn order_law()
    ensures truth { OrderedTruth }
    ensures range { OrderedRange }
    ensures form { OrderedForm }
{}
