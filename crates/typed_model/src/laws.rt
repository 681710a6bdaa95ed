//! Facts about the definitions that crates above may use. Each is the contract of a function that does
//! nothing.

ghost use Rattle.typed_model.specs.Laws.{TypingLaw, LimitLaw, SizeLaw, TextSizeLaw};

/// The model of items without a fault is well typed.
pub fn typing_law()
    ensures { TypingLaw }
{}

/// Where the numerals and the terms of the items are in their limits, so are the numbers, domains and lists of their
/// model.
pub fn limit_law()
    ensures { LimitLaw }
{}

/// The model of items is not larger than they are: no item declares or states more than once, and each member
/// of a list is a term. A text's items have no more terms than it has bytes.
pub fn size_law()
    ensures items { SizeLaw }
    ensures text { TextSizeLaw }
{}
