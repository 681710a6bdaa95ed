//! The statements of the language, told apart by their names.

/// How two integers are compared.
#[derive(Clone, Copy, Debug)]
pub enum Relation {
    /// At most.
    Leq,
    /// At least.
    Geq,
    /// Equal.
    Eq,
    /// Less.
    Lt,
    /// Greater.
    Gt,
    /// Not equal.
    Neq,
}

/// How a list of Booleans is combined.
#[derive(Clone, Copy, Debug)]
pub enum Operator {
    /// A member is true.
    Or,
    /// All members are true.
    And,
    /// An odd number of members is true.
    Xor,
    /// All members are equal.
    Iff,
}

/// An operation on two integers.
#[derive(Clone, Copy, Debug)]
pub enum Arithmetic {
    /// The sum.
    Plus,
    /// The product.
    Times,
    /// The quotient, rounded down.
    Div,
    /// The remainder of that quotient.
    Mod,
    /// The greater one.
    Max,
    /// The lesser one.
    Min,
}

/// An operation on a list of integers.
#[derive(Clone, Copy, Debug)]
pub enum Aggregate {
    /// The sum.
    Plus,
    /// The greatest member.
    Max,
    /// The least member.
    Min,
}

/// Which members of a list of integers differ.
#[derive(Clone, Copy, Debug)]
pub enum AllDifferent {
    /// Members at different places.
    Plain,
    /// A Boolean is the truth of that.
    Reified,
    /// Members at two places whose conditions are both true.
    Conditional,
}

/// How two lists are ordered by the first place where they differ.
#[derive(Clone, Copy, Debug)]
pub struct Order {
    /// Whether the lists are of Booleans, and else of integers.
    pub of_booleans: bool,
    /// Whether equal lists are out of order.
    pub strict: bool,
    /// Whether a Boolean is the truth of the order.
    pub reified: bool,
}

/// A declaration or a statement, as its name says.
#[derive(Clone, Copy, Debug)]
pub enum Statement {
    /// `new_bool`
    NewBool,
    /// `new_int`
    NewInt,
    /// `bool2int`
    BoolToInt,
    /// `bool_eq`
    BoolEq,
    /// `bool_OP_reif`
    BoolOp(Operator),
    /// `bool_array_OP`
    BoolArray(Operator),
    /// `bool_array_OP_reif`
    BoolArrayReified(Operator),
    /// `int_REL`
    Compare(Relation),
    /// `int_REL_reif`
    CompareReified(Relation),
    /// `bool_array_sum_REL`
    BoolSum(Relation),
    /// `bool_array_pb_REL`
    BoolLinear(Relation),
    /// `int_array_sum_REL`
    IntSum(Relation),
    /// `int_array_lin_REL`
    IntLinear(Relation),
    /// `int_plus`, `int_times`, `int_div`, `int_mod`, `int_max`, `int_min`
    IntOp(Arithmetic),
    /// `int_abs`
    Absolute,
    /// `int_array_plus`, `int_array_max`, `int_array_min`
    IntArray(Aggregate),
    /// `int_array_allDiff`, `int_array_allDiff_reif`, `int_array_allDiffCond`
    IntAllDifferent(AllDifferent),
    /// `bool_arrays_lex`, `int_arrays_lex`, with `Lt` and `_reif`
    Lexicographic(Order),
}
