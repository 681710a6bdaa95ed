//! The map lines of a model.

ghost use Rattle.std.specs.Prelude.{◌≡◌, length, IfOk};
ghost use Rattle.compile_mode.specs.Compiled.{entries_of};

use model_meaning::Decl;
use name_map::MapEntry;
use order_ints::MapValue;
use std::alloc::{AllocError, Global};

/// Each declared name with what it stands for; the names move.
pub(crate) fn entries_of(
    alloc: Global,
    mut decls: Vec<Decl>,
    mut values: Vec<MapValue>,
) -> Result<Vec<MapEntry>, AllocError>
    requires { length decls.items ≡ length values.items }
    ensures { IfOk result (λ entries. entries.items ≡ entries_of decls.items values.items) }
{
    let mut entries = Vec::with_capacity(alloc, decls.len())?;
    while let Some(decl) = decls.pop() {
        if let Some(value) = values.pop() {
            entries.push(MapEntry {
                name: decl.name,
                value,
            })?;
        }
    }
    entries.reverse();
    Ok(entries)
}
