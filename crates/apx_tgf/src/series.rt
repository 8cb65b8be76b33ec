//! Names that are numbered in a row.

ghost use Rattle.std.specs.Prelude.{◌≡◌, ℕ, ◌+◌, ◌-◌, ◌≤◌, ◌<◌, [], ◌∷◌, ◌++◌, List, length, false, slice_index, IfSome, IsTrue};
ghost use Rattle.std.specs.Fmt.{decimal};
ghost use Rattle.apx_tgf.specs.Series.{numbered_name, HasSeries};

use num_text::decimal;

/// A row of names that begin with the same bytes and end in numbers which rise by one, as `a7`, `a8` and `a9` do.
///
/// The number of such a name follows from its bytes, so that no memory is read for it: a run on 1,000,000 names and
/// 3,000,000 random attacks spent a quarter of its time on waiting for a table of names.
#[derive(Clone, Copy)]
pub struct Series<'a> {
    /// What each of the names begins with.
    pub prefix: &'a [u8],
    /// The number that the first of them ends in.
    pub first: u32,
    /// How many other names come before them.
    pub start: usize,
    /// How many they are.
    pub count: usize,
}

impl<'a> Series<'a> {
    /// The series of no names.
    pub(crate) fn new() -> Series<'a>
        ensures { HasSeries [] result }
    {
        Series {
            prefix: "".as_bytes(),
            first: 0,
            start: 0,
            count: 0,
        }
    }

    /// How many names of the series come before this name, if it is one of them.
    #[inline(always)]
    pub(crate) fn offset_of(&self, name: &[u8]) -> Option<usize>
        ensures within { IfSome result (λ offset. offset < self.now.count) }
        ensures name { IfSome result
            (λ offset. name.now ≡ numbered_name self.now.prefix.now (self.now.first + offset)) }
    {
        let offset = self.distance_to(name)?;
        if offset >= self.count {
            return None;
        }
        Some(offset)
    }

    /// A series after this name came behind the other names, which makes them so many: this one with the name, where it
    /// goes on there. Of two series one with more than half of the names is kept.
    pub(crate) fn with_last(&self, name: &'a [u8], total: usize) -> Series<'a>
        ensures { (names : List (List ℕ)) → HasSeries names self.now → length names + 1 ≡ total
            → HasSeries (names ++ name.now ∷ []) result }
    {
        if self.goes_on(name, total) {
            return Series {
                prefix: self.prefix,
                first: self.first,
                start: self.start,
                count: total - self.start,
            };
        }
        if self.count > total / 2 {
            return *self;
        }
        match begun_by(name, total) {
            Some(series) => series,
            None => *self,
        }
    }

    // Whether the series goes on with this name, where it is the last of so many.
    fn goes_on(&self, name: &[u8], total: usize) -> bool
        ensures place { IsTrue result → self.now.start + self.now.count + 1 ≡ total }
        ensures name { IsTrue result → name.now ≡ numbered_name self.now.prefix.now (self.now.first + self.now.count) }
    {
        if total <= self.start || total - self.start - 1 != self.count {
            return false;
        }
        match self.distance_to(name) {
            Some(distance) => distance == self.count,
            None => false,
        }
    }

    // By how much the number of this name is above that of the first, if it has the prefix.
    #[inline(always)]
    fn distance_to(&self, name: &[u8]) -> Option<usize>
        ensures { IfSome result
            (λ distance. name.now ≡ numbered_name self.now.prefix.now (self.now.first + distance)) }
    {
        let number = number_behind(self.prefix, name)?;
        if number < self.first {
            return None;
        }
        Some((number - self.first) as usize)
    }
}

// The series that begins with this name, where it is the last of so many.
fn begun_by(name: &[u8], total: usize) -> Option<Series<'_>>
    ensures place { IfSome result (λ series. series.start ≡ total - 1) }
    ensures count { IfSome result (λ series. series.count ≡ 1) }
    ensures name { IfSome result (λ series. name.now ≡ numbered_name series.prefix.now series.first) }
{
    let prefix = &name[..prefix_length(name)];
    let first = number_behind(prefix, name)?;
    Some(Series {
        prefix,
        first,
        start: total.saturating_sub(1),
        count: 1,
    })
}

// The number of bytes before the number at the end of a name. Zeros in front of it belong to them, so that names of one
// length, as `a098` and `a099`, make series too.
fn prefix_length(name: &[u8]) -> usize
    ensures { result ≤ length name.now }
{
    let start = digits_start(name);
    start + zeros_length(&name[start..])
}

// The index at which the digits at the end of a name begin.
fn digits_start(name: &[u8]) -> usize
    ensures { result ≤ length name.now }
{
    match name.iter().rposition(|byte| !byte.is_ascii_digit()) {
        Some(index) => index + 1,
        None => 0,
    }
}

// How many zeros stand in front of other digits.
fn zeros_length(digits: &[u8]) -> usize
    ensures { result ≤ length digits.now }
{
    match digits.iter().position(|byte| *byte != b'0') {
        Some(index) => index,
        None => digits.len().saturating_sub(1),
    }
}

// The number that stands in decimal behind the prefix, if that is all of the name.
#[inline(always)]
fn number_behind(prefix: &[u8], name: &[u8]) -> Option<u32>
    ensures { IfSome result (λ number. name.now ≡ numbered_name prefix.now number) }
{
    let digits = name.strip_prefix(prefix)?;
    spelled(digits)
}

// The number whose digits in decimal these are, without a zero in front.
#[inline(always)]
fn spelled(digits: &[u8]) -> Option<u32>
    ensures { IfSome result (λ number. digits.now ≡ decimal number) }
{
    if has_leading_zero(digits) {
        return None;
    }
    decimal(digits)
}

// Whether a zero stands in front of other digits.
#[inline(always)]
fn has_leading_zero(digits: &[u8]) -> bool
    ensures { result ≡ false → slice_index digits.now 0 ≡ 48 → length digits.now ≤ 1 }
{
    if digits.len() < 2 {
        return false;
    }
    digits[0] == b'0'
}
