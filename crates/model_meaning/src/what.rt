//! What a statement states: one variant for each line of the table of statements.

use crate::statement::{Aggregate, AllDifferent, Arithmetic, Operator, Order, Relation};
use bee_list::{Apart, Sequence};
use bumblebee_reader::Name;

/// A Boolean term.
#[derive(Clone, Copy, Debug, PartialEq, Eq)]
pub enum BoolTerm {
    /// `true` or `false`.
    Const(bool),
    /// A declared Boolean, or its negation.
    Of {
        /// The place of its declaration.
        place: usize,
        /// Whether it is the Boolean itself.
        positive: bool,
    },
}

/// An integer term.
#[derive(Clone, Copy, Debug, PartialEq, Eq)]
pub enum IntTerm {
    /// A numeral.
    Number(i64),
    /// A declared integer, by the place of its declaration.
    Of(usize),
}

/// A statement without its number. The variants are the lines of the table of statements, and where a
/// line has several statements, its variant begins with the statement's name and with what the name says, which
/// was read once. Parts that a statement may leave out stand apart, so that a statement that has none of them is
/// small.
#[derive(Debug, Drop)]
pub enum What {
    /// `bool2int`: a Boolean as an integer.
    BoolToInt {
        /// The Boolean.
        truth: BoolTerm,
        /// The integer, 1 where the Boolean is true and else 0.
        number: IntTerm,
    },
    /// `bool_eq`: two Booleans are equal.
    BoolEq {
        /// One of them.
        left: BoolTerm,
        /// The other.
        right: BoolTerm,
    },
    /// `bool_or_reif` and its kin: a Boolean is an operator of two.
    BoolOp {
        /// The statement's name.
        name: Name,
        /// The operator of its name.
        operator: Operator,
        /// The first operand.
        left: BoolTerm,
        /// The second operand.
        right: BoolTerm,
        /// The operator's truth.
        truth: BoolTerm,
    },
    /// `bool_array_or` and its kin: an operator of a list is true.
    BoolArray {
        /// The statement's name.
        name: Name,
        /// The operator of its name.
        operator: Operator,
        /// The operands.
        members: Sequence<BoolTerm>,
    },
    /// `bool_array_or_reif` and its kin: a Boolean is an operator of a list.
    BoolArrayReified {
        /// The statement's name.
        name: Name,
        /// The operator of its name.
        operator: Operator,
        /// The operands.
        members: Sequence<BoolTerm>,
        /// The operator's truth.
        truth: BoolTerm,
    },
    /// `int_leq` and its kin: a comparison of two integers.
    Compare {
        /// The statement's name.
        name: Name,
        /// The relation of its name.
        relation: Relation,
        /// The left side.
        left: IntTerm,
        /// The right side.
        right: IntTerm,
    },
    /// `int_leq_reif` and its kin: a Boolean is the truth of a comparison.
    CompareReified {
        /// The statement's name.
        name: Name,
        /// The relation of its name.
        relation: Relation,
        /// The left side.
        left: IntTerm,
        /// The right side.
        right: IntTerm,
        /// The comparison's truth.
        truth: BoolTerm,
    },
    /// `bool_array_sum_leq` and its kin: the number of true members is compared.
    BoolSum {
        /// The statement's name.
        name: Name,
        /// The relation of its name.
        relation: Relation,
        /// The members.
        members: Sequence<BoolTerm>,
        /// The right side.
        bound: IntTerm,
    },
    /// `bool_array_pb_leq` and its kin: the coefficients of the true members are added and compared.
    BoolLinear {
        /// The statement's name.
        name: Name,
        /// The relation of its name.
        relation: Relation,
        /// A coefficient for each member.
        coefficients: Sequence<i64>,
        /// The members.
        members: Sequence<BoolTerm>,
        /// The right side.
        bound: IntTerm,
    },
    /// `int_array_sum_leq` and its kin: the members are added and compared.
    IntSum {
        /// The statement's name.
        name: Name,
        /// The relation of its name.
        relation: Relation,
        /// The members.
        members: Sequence<IntTerm>,
        /// The right side.
        bound: IntTerm,
    },
    /// `int_array_lin_leq` and its kin: the members times their coefficients are added and compared.
    IntLinear {
        /// The statement's name.
        name: Name,
        /// The relation of its name.
        relation: Relation,
        /// A coefficient for each member.
        coefficients: Sequence<i64>,
        /// The members.
        members: Sequence<IntTerm>,
        /// The right side.
        bound: IntTerm,
    },
    /// `int_plus`, `int_times`, `int_div`, `int_mod`, `int_max`, `int_min`: an operation on two integers.
    IntOp {
        /// The statement's name.
        name: Name,
        /// The operation of its name.
        operation: Arithmetic,
        /// The first operand.
        left: IntTerm,
        /// The second operand.
        right: IntTerm,
        /// What the operation gives.
        value: IntTerm,
    },
    /// `int_abs`: an absolute value.
    Absolute {
        /// The integer.
        operand: IntTerm,
        /// Its absolute value.
        value: IntTerm,
    },
    /// `int_array_plus`, `int_array_max`, `int_array_min`: an operation on a list of integers.
    IntArray {
        /// The statement's name.
        name: Name,
        /// The operation of its name.
        operation: Aggregate,
        /// The members.
        members: Sequence<IntTerm>,
        /// What the operation gives.
        value: IntTerm,
    },
    /// `int_array_allDiff`, `int_array_allDiff_reif`, `int_array_allDiffCond`: members differ.
    IntAllDifferent {
        /// The statement's name.
        name: Name,
        /// Which members differ, by its name.
        kind: AllDifferent,
        /// The members.
        members: Sequence<IntTerm>,
        /// The truth of it, for `_reif`.
        truth: Option<Apart<BoolTerm>>,
        /// A condition for each member, for `Cond`.
        conditions: Option<Apart<Sequence<BoolTerm>>>,
    },
    /// `bool_arrays_lex` and its kin: two lists are in order.
    Lexicographic {
        /// The statement's name.
        name: Name,
        /// The order of its name.
        order: Order,
        /// The first list, of Booleans.
        left_truths: Option<Apart<Sequence<BoolTerm>>>,
        /// The second list, of Booleans.
        right_truths: Option<Apart<Sequence<BoolTerm>>>,
        /// The first list, of integers.
        left_numbers: Option<Apart<Sequence<IntTerm>>>,
        /// The second list, of integers.
        right_numbers: Option<Apart<Sequence<IntTerm>>>,
        /// The truth of it, for `_reif`.
        truth: Option<Apart<BoolTerm>>,
    },
}
