//! The laws of reading and writing: a text has one outcome, and reads as exactly the certificates of which it is the
//! text. Each function does nothing; its contract is the law.

ghost use Rattle.std.specs.Prelude.{◌≡◌, ◌↔◌, ℕ, List, Ok};
ghost use Rattle.certificate_claims.specs.declared.certificate.Certificate.{Certificate};
ghost use Rattle.certificate_text.specs.CertText.{IsCertText};
ghost use Rattle.certificate_text.specs.Reading.{Outcome, ReadsAs, kept_fields};

/// A text reads as one certificate alone, or has one fault that is told, and not both.
pub fn one_reading()
    ensures { (bytes : List ℕ) (a b : Outcome) → ReadsAs bytes a → ReadsAs bytes b → a ≡ b }
{}

/// A text reads as a certificate exactly where its lines are the header, those of the sets, those of the refutations, and
/// the end.
pub fn reading_is_exact()
    ensures { (bytes : List ℕ) (certificate : Certificate)
        → ReadsAs bytes (Ok certificate) ↔ IsCertText (kept_fields bytes) certificate }
{}
