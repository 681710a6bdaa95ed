//! Laws of what is read. The functions do nothing: their contracts are the laws.

ghost use Rattle.opb_front.specs.Laws.{EachTextEnds, OneEnd};
ghost use Rattle.opb_front.specs.Fits.{ReadFits};

/// Each text says something or has a first fault, and never both, nor two of either.
pub fn text_law()
    ensures each { EachTextEnds }
    ensures one { OneEnd }
{}

/// What is read is in its limits: each index is that of a variable, of which there are at most 1,000,000, each number
/// is at most 1,073,741,824 in absolute value, and a sum has at most half as many terms as the text has bytes.
pub fn fits_law()
    ensures { ReadFits }
{}
