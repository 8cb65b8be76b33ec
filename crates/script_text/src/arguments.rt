//! The fields of a command, one by one.

ghost use Rattle.std.specs.Prelude.{◌≡◌, [], ◌∷◌, map, Contains, IfOk, IfSome, IfNone, Some, None};
ghost use Rattle.std.specs.List.{AllZip};
ghost use Rattle.num_text.specs.Numerals.{IsReadNumber};

use lists::{Items, Memory};
use num_text::Fields;
use std::alloc::Global;

/// The text of the next field, where one is left.
pub(crate) fn next_text<'a>(fields: &mut Fields<'a>) -> Option<&'a [u8]>
    ensures some { IfSome result (λ text. map (λ f. f.text) fields.old ≡ text.now ∷ map (λ f. f.text) fields.new) }
    ensures none { IfNone result (map (λ f. f.text) fields.old ≡ []) }
{
    Some(fields.next()?.text)
}

/// What each of the fields spells: its number, or that it is none.
pub(crate) fn readings_of(
    alloc: Global,
    mut fields: Fields<'_>,
) -> Result<Items<Option<u32>>, Memory>
    ensures { IfOk result (λ readings. AllZip IsReadNumber (map (λ f. f.text) fields.entry) readings) }
{
    let mut readings = Items::new(alloc);
    while let Some(field) = fields.next_number() {
        readings.push(field.number)?;
    }
    Ok(readings)
}

/// The numbers, where each field spelled one.
pub(crate) fn numbers_of(
    alloc: Global,
    readings: &[Option<u32>],
) -> Result<Option<Items<u32>>, Memory>
    ensures all { IfOk result (λ numbers. IfSome numbers (λ ns. map Some ns ≡ readings.now)) }
    ensures none { IfOk result (λ numbers. IfNone numbers (Contains readings.now None)) }
{
    let mut numbers = Items::new(alloc);
    for reading in readings {
        let Some(number) = reading else {
            return Ok(None);
        };
        numbers.push(*number)?;
    }
    Ok(Some(numbers))
}
