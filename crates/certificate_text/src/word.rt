//! The words that lines of a certificate begin with.

ghost use Rattle.std.specs.Prelude.{◌≡◌};
ghost use Rattle.certificate_text.specs.Lines.{word_of};

/// What a line begins with.
#[derive(Clone, Copy, PartialEq, Eq)]
pub(crate) enum Word {
    /// `cert`.
    Header,
    /// `w`.
    Set,
    /// `r`.
    Refutation,
    /// `a`.
    Axiom,
    /// `s`.
    Side,
    /// `d`.
    Derived,
    /// `end`.
    End,
    /// Any other field, or none.
    Other,
}

/// The word that the field is.
pub(crate) fn word_of(field: &[u8]) -> Word
    ensures { result ≡ word_of field.now }
{
    match field {
        b"d" => Word::Derived,
        b"a" => Word::Axiom,
        b"s" => Word::Side,
        b"w" => Word::Set,
        b"r" => Word::Refutation,
        b"end" => Word::End,
        b"cert" => Word::Header,
        _ => Word::Other,
    }
}
