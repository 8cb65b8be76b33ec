//! The tokens of a line.

ghost use Rattle.std.specs.Prelude.{◌≡◌, ◌↔◌, ◌∷◌, [], ◌≤◌, ◌<◌, false, IfSome, IfNone, IsTrue, length, not, take, drop, slice_index};
ghost use Rattle.std.specs.List.{position, position_or_len};
ghost use Rattle.num_text.specs.Cuts.{is_blank};
ghost use Rattle.apx_tgf.specs.Names.{is_name_byte, IsName};
ghost use Rattle.apx_tgf.specs.ApxText.{tokens_of, IsToken};

use std::marker::Model;

/// The tokens that are left to come, in order.
#[derive(Drop)]
pub(crate) struct Tokens<'a> {
    text: &'a [u8],
    start: usize,
}

impl<'a> Model for Tokens<'a> {
    ghost use Rattle.std.specs.Prelude.{List, ℕ, ◌≤◌, length, drop};
    ghost use Rattle.apx_tgf.specs.ApxText.{tokens_of};

    ghost Value = { List (List ℕ) };

    ghost view = { λ t. tokens_of (drop t.start t.text.now) };

    ghost invariant = { λ t. t.start ≤ length t.text.now };
}

impl<'a> Tokens<'a> {
    /// All tokens of a text.
    pub fn new(text: &'a [u8]) -> Tokens<'a>
        ensures { result ≡ tokens_of text.now }
    {
        Tokens { text, start: 0 }
    }

    /// The next token. `None` comes after the last.
    #[inline(always)]
    pub fn next(&mut self) -> Option<&'a [u8]>
        ensures some { IfSome result (λ token. self.old ≡ token.now ∷ self.new) }
        ensures form { IfSome result (λ token. IsToken token.now) }
        ensures none { IfNone result (self.old ≡ []) }
    {
        let left = &self.text[self.start..];
        let start = self.start + blanks_length(left);
        let rest = &self.text[start..];
        if rest.is_empty() {
            return None;
        }
        let length = token_length(rest);
        self.start = start + length;
        Some(&rest[..length])
    }
}

// The length of the token that the bytes begin with.
#[inline(always)]
fn token_length(bytes: &[u8]) -> usize
    requires some { 0 < length bytes.now }
    requires token { is_blank (slice_index bytes.now 0) ≡ false }
    ensures token { tokens_of bytes.now ≡ take result bytes.now ∷ tokens_of (drop result bytes.now) }
    ensures form { IsToken (take result bytes.now) }
    ensures within { result ≤ length bytes.now }
{
    if is_name_byte(bytes[0]) {
        name_length(bytes)
    } else {
        1
    }
}

/// The number of blanks that the bytes begin with.
#[inline(always)]
pub(crate) fn blanks_length(bytes: &[u8]) -> usize
    ensures index { result ≡ position_or_len (λ byte. not (is_blank byte)) bytes.now }
    ensures within { result ≤ length bytes.now }
{
    token_start(bytes).unwrap_or(bytes.len())
}

// The index of the first byte that is no blank.
fn token_start(bytes: &[u8]) -> Option<usize>
    ensures { result ≡ position (λ byte. not (is_blank byte)) bytes.now }
{
    bytes.iter().position(|byte| !is_blank(*byte))
}

// The number of bytes of names that the bytes begin with.
#[inline(always)]
fn name_length(bytes: &[u8]) -> usize
    ensures index { result ≡ position_or_len (λ byte. not (is_name_byte byte)) bytes.now }
    ensures within { result ≤ length bytes.now }
{
    name_end(bytes).unwrap_or(bytes.len())
}

// The index of the first byte that is none of a name.
fn name_end(bytes: &[u8]) -> Option<usize>
    ensures { result ≡ position (λ byte. not (is_name_byte byte)) bytes.now }
{
    bytes.iter().position(|byte| !is_name_byte(*byte))
}

/// Whether the text is a name.
pub(crate) fn is_name(text: &[u8]) -> bool
    ensures { IsTrue result ↔ IsName text.now }
{
    !text.is_empty() && name_length(text) == text.len()
}

/// Whether a token is a name, which its first byte tells.
#[inline(always)]
pub(crate) fn is_name_token(token: &[u8]) -> bool
    requires { IsToken token.now }
    ensures { IsTrue result ↔ IsName token.now }
{
    is_name_byte(token[0])
}

// Whether the byte is space, tab or CR.
fn is_blank(byte: u8) -> bool
    ensures { result ≡ is_blank byte }
{
    matches!(byte, b' ' | b'\t' | b'\r')
}

// Whether the byte is one of a name.
fn is_name_byte(byte: u8) -> bool
    ensures { result ≡ is_name_byte byte }
{
    byte.is_ascii_alphanumeric() || byte == b'_'
}
