//! Numbers in decimal.

ghost use Rattle.std.specs.Prelude.{ℕ, ◌≤◌, IfSome, IfNone, length, take};
ghost use Rattle.num_text.specs.Number.{IsNumber};

/// The largest number of 32 bits.
const MAX_NUMBER: u64 = 4_294_967_295;

/// The number that the bytes spell: one or more ASCII digits, with a value up to 4,294,967,295. Leading
/// zeros are accepted. `None` for all other bytes.
pub fn decimal(bytes: &[u8]) -> Option<u32>
    ensures number { IfSome result (IsNumber bytes.now) }
    ensures none { IfNone result ((n : ℕ) → ¬ IsNumber bytes.now n) }
{
    if bytes.is_empty() {
        return None;
    }
    let mut value: u64 = 0;
    for byte in bytes {
        if !byte.is_ascii_digit() {
            return None;
        }
        value = value * 10 + u64::from(*byte - b'0');
        if value > MAX_NUMBER {
            return None;
        }
    }
    Some(value as u32)
}

/// How many digits are so few that the number which they spell fits 32 bits, whatever they are.
const FEW_DIGITS: usize = 9;

/// A number that bytes begin with.
#[derive(Clone, Copy)]
pub(crate) struct Numeral {
    pub value: u32,
    /// How many digits spell it.
    pub length: usize,
}

/// The number that the first nine bytes begin with: where so few digits are taken, no step can overflow.
#[inline(always)]
pub(crate) fn leading_number(bytes: &[u8]) -> Option<Numeral>
    ensures within { IfSome result (λ r. r.length ≤ length bytes.now) }
    ensures number { IfSome result (λ r. IsNumber (take r.length bytes.now) r.value) }
{
    let most = bytes.len().min(FEW_DIGITS);
    let mut value: u32 = 0;
    let mut length = 0;
    while length < most && bytes[length].is_ascii_digit() {
        value = value * 10 + u32::from(bytes[length] - b'0');
        length += 1;
    }
    if length == 0 {
        return None;
    }
    Some(Numeral { value, length })
}
