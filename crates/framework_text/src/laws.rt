//! The law of reading.

ghost use Rattle.std.specs.Prelude.{◌≡◌, ℕ, List};
ghost use Rattle.semantics.specs.Frameworks.{Framework, IsNumbered};
ghost use Rattle.af_format.specs.declared.fault.LineCause.{LineCause};
ghost use Rattle.framework_text.specs.FrameworkText.{HasFault, ReadsAs};

/// A text reads as one framework alone, of one kind, whose numbers are within their bounds; and then it has no fault. It
/// does nothing; its contract is the law.
pub fn one_reading()
    ensures same { (bytes : List ℕ) → (f g : Framework) → ReadsAs bytes f → ReadsAs bytes g → f ≡ g }
    ensures numbered { (bytes : List ℕ) → (f : Framework) → ReadsAs bytes f → IsNumbered f }
    ensures faultless { (bytes : List ℕ) → (f : Framework) → ReadsAs bytes f → (line : ℕ) (cause : LineCause)
        → HasFault bytes line cause → ⊥ }
{}
