//! A kind of text, and how it is checked.

ghost use Rattle.std.specs.Prelude.{◌≡◌, ◌≤◌, ◌++◌, ℕ, List, length, IfOk, IfErr, OnOk};
ghost use Rattle.model_texts.specs.ModelTexts.{longest_text};
ghost use Rattle.check_modes.specs.Kinds.{IsChecked};

use crate::checked::Checked;
use model_texts::ModelTextFault;
use std::alloc::{AllocError, Global};

/// A kind of text that is checked against a model.
pub trait Checker {
    ghost use Rattle.std.specs.Prelude.{List};
    ghost use Rattle.model_meaning.specs.declared.model.Model.{Model};
    ghost use Rattle.check_modes.specs.Kinds.{Kind};

    /// The model of the first text, as it is kept while the second one is read.
    type Held: Drop;

    /// What a valid text says.
    type Verdict: Drop;

    ghost kind: { Kind Self.Verdict };

    ghost model_of: { Self.Held → Model };

    ghost is_kept: { Self.Held → Type 0 };

    /// The model that a text within the limit holds, or why it holds none.
    fn judge(&self, alloc: Global, first: &[u8]) -> Result<Self::Held, ModelTextFault>
        requires { length first.now ≤ longest_text }
        ensures model { IfOk result (λ held. kind.Holds first.now (model_of held) × is_kept held) }
        ensures fault { IfErr result (λ e. kind.IsCause e first.now) };

    /// What comes of a text. The model is used up.
    fn check(
        &self,
        alloc: Global,
        held: Self::Held,
        second: &[u8],
    ) -> Result<Checked<Self::Verdict>, AllocError>
        requires holds { (first : List ℕ) × kind.Holds first (model_of held) }
        requires kept { is_kept held }
        ensures { IfOk result (IsChecked kind (model_of held) second.now) };

    /// Writes the words of a verdict.
    fn push_words(&self, out: &mut Vec<u8>, verdict: Self::Verdict) -> Result<(), AllocError>
        ensures { OnOk result (out.new.items ≡ out.old.items ++ kind.words verdict) };
}
