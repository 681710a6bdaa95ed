//! Laws of proofs, each the contract of a function that does nothing.

ghost use Rattle.proof_check.specs.Laws.{StartImplied, LineImplied, AddedImplied, KnownImplied, CnfStays, LinesGoOn};
ghost use Rattle.proof_check.specs.Laws.{LitsFit, TextTellsLine, BytesTellLine};

/// What a proof without a fault implies: each valuation that satisfies the CNF satisfies every clause that was added,
/// and every known one.
pub fn implied_laws()
    ensures start { StartImplied }
    ensures line { LineImplied }
    ensures added { AddedImplied }
    ensures known { KnownImplied }
{}

/// How proofs go on: line by line, from one CNF, with clauses whose variables are in range and differ.
pub fn proof_laws()
    ensures cnf { CnfStays }
    ensures lines { LinesGoOn }
    ensures literals { LitsFit }
{}

/// A line's text tells the line.
pub fn text_laws()
    ensures text { TextTellsLine }
    ensures bytes { BytesTellLine }
{}
