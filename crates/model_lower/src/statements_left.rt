//! The statements of a model that are left, in reverse order, so that each is taken as it is its turn.

ghost use Rattle.std.specs.Prelude.{◌≡◌, ◌<◌, ◌∷◌, List, true, false, length, reverse, MatchOption};
ghost use Rattle.std.specs.Prelude.{OnSome};
ghost use Rattle.model_meaning.specs.declared.model.Stmt.{Stmt};
ghost use Rattle.model_items.specs.Items.{Statement, Definition, declared_item, behind_declared, items_of};
ghost use Rattle.model_lower.specs.Walk.{DeclarationFirst, IsApart, Defines};

use model_meaning::{Decl, Stmt};

/// Whether a statement stands before the first declaration, and so before all.
fn stands_first(stmt: &Stmt, decls: &[Decl]) -> bool
    ensures first { result ≡ true → (ss : List Stmt)
        → items_of decls.now (stmt.now ∷ ss) ≡ Statement stmt.now ∷ items_of decls.now ss }
    ensures later { result ≡ false → (ss : List Stmt) → DeclarationFirst decls.now (stmt.now ∷ ss) }
{
    match decls.first() {
        Some(decl) => stmt.number < decl.number,
        None => true,
    }
}

/// Takes the next statement, the last one of `left`, where it stands before the first declaration.
pub fn next_statement(decls: &[Decl], left: &mut Vec<Stmt>) -> Option<Stmt>
    ensures next { MatchOption result ((left.new ≡ left.old) × DeclarationFirst decls.now (reverse left.old.items))
        (λ s. items_of decls.now (reverse left.old.items) ≡ Statement s
        ∷ items_of decls.now (reverse left.new.items)) }
    ensures shorter { OnSome result (length left.new.items < length left.old.items) }
{
    let first = match left.last() {
        Some(stmt) => stands_first(stmt, decls),
        None => false,
    };
    if first { left.pop() } else { None }
}

/// Whether a statement has the number of a declaration, and so declares its integer.
fn declares(stmt: &Stmt, decl: &Decl) -> bool
    ensures defines { result ≡ true → (ss : List Stmt)
        → declared_item decl.now (stmt.now ∷ ss) ≡ Definition decl.now stmt.now }
    ensures behind { result ≡ true → (ss : List Stmt) → behind_declared decl.now (stmt.now ∷ ss) ≡ ss }
    ensures apart { result ≡ false → (ss : List Stmt) → IsApart decl.now (stmt.now ∷ ss) }
{
    stmt.number == decl.number
}

/// Takes the next statement, the last one of `left`, where it declares the integer of a declaration.
pub fn defining_statement(decl: &Decl, left: &mut Vec<Stmt>) -> Option<Stmt>
    ensures next { MatchOption result ((left.new ≡ left.old) × IsApart decl.now (reverse left.old.items))
        (λ s. Defines decl.now s (reverse left.old.items) (reverse left.new.items)) }
    ensures shorter { OnSome result (length left.new.items < length left.old.items) }
{
    let first = match left.last() {
        Some(stmt) => declares(stmt, decl),
        None => false,
    };
    if first { left.pop() } else { None }
}
