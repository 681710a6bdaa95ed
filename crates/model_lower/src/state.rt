//! What a model is lowered to.

use bee_list::Sequence;
use core_forms::Core;
use model_meaning::Decl;
use name_map::NameMap;

/// A model as cores over Boolean variables.
#[derive(Drop)]
pub struct Lowered {
    /// How many variables there are; they are numbered from 1.
    pub vars: u32,
    /// What the declared names stand for.
    pub map: NameMap,
    /// The cores, in the order of their items.
    pub cores: Sequence<Core>,
}

/// A model as cores, and its declarations.
#[derive(Drop)]
pub struct LoweredModel {
    /// The model as cores.
    pub lowered: Lowered,
    /// The declarations, whose names the entries of the map belong to.
    pub decls: Sequence<Decl>,
}
