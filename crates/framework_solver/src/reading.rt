//! What a model is read as.

ghost use Rattle.std.specs.Prelude.{IfOk};
ghost use Rattle.edit_rules.specs.Kinds.{framework_of};
ghost use Rattle.framework_solver.specs.Readings.{IsReading};

use aba_encoding::AbaEncoding;
use af_encoding::AfEncoding;
use edit_rules::Framework;
use lists::Memory;
use meaning_atoms::{AtomLit, AxiomName};
use oracle_face::Encoding;
use set_lists::NumSet;
use std::alloc::Global;

/// A set of which the model says what is so, or the loop clause that it lacks for that.
#[derive(Drop)]
pub(crate) enum Reading {
    Set(NumSet),
    Lacks(AxiomName),
}

/// What a model is read as, by the encoding of a kind. A set is decoded only where nothing is missing.
fn read_by<E: Encoding>(
    alloc: Global,
    plain: &E::Plain,
    values: &[AtomLit],
) -> Result<Reading, Memory>
    ensures { IfOk result (IsReading (E.framework plain.now) values.now) }
{
    match E::missing(alloc, plain, values)? {
        Some(name) => Ok(Reading::Lacks(name)),
        None => {
            let set = E::decode(alloc, values)?;
            Ok(Reading::Set(set))
        }
    }
}

/// What a model is read as.
pub(crate) fn read_model(
    alloc: Global,
    framework: &Framework,
    values: &[AtomLit],
) -> Result<Reading, Memory>
    ensures { IfOk result (IsReading (framework_of framework.now) values.now) }
{
    match framework {
        Framework::Af(plain) => read_by::<AfEncoding>(alloc, plain, values),
        Framework::Aba(plain) => read_by::<AbaEncoding>(alloc, plain, values),
    }
}
