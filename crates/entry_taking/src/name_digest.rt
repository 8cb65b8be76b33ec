//! Numbers that tell most names apart, by which a map looks for them.

ghost use Rattle.std.specs.Prelude.{◌≡◌};
ghost use Rattle.entry_taking.specs.Digests as digests;

use crate::names::StepName;
use meaning_atoms::{AbaAxiom, AfAxiom, AxiomName, Closure};

/// The row of an axiom in its table, and its arguments but the rows of a loop clause; or those of an entry's name.
#[derive(Clone, Copy)]
pub(crate) struct Digest {
    pub(crate) row: u32,
    pub(crate) closure: u32,
    pub(crate) first: u32,
    pub(crate) second: u32,
    pub(crate) third: u32,
}

/// The numbers of a name.
pub(crate) fn digest_of(name: &StepName) -> Digest
    ensures { result ≡ digests.digest name.now }
{
    match name {
        StepName::Axiom(AxiomName::Af(axiom)) => of_af(axiom),
        StepName::Axiom(AxiomName::Aba(axiom)) => of_aba(axiom),
        StepName::Entry(session, step) => from_parts(0, 0, *session, step.number(), 0),
    }
}

fn from_parts(row: u32, closure: u32, first: u32, second: u32, third: u32) -> Digest
    ensures { result ≡ digests.digest_from row closure first second third }
{
    Digest {
        row,
        closure,
        first,
        second,
        third,
    }
}

fn closure_number(closure: Closure) -> u32
    ensures { result ≡ digests.closure_number closure }
{
    match closure {
        Closure::Own => 1,
        Closure::Rest => 2,
    }
}

fn of_af(axiom: &AfAxiom) -> Digest
    ensures { result ≡ digests.af_digest axiom.now }
{
    match *axiom {
        AfAxiom::A1(a) => from_parts(1, 0, a, 0, 0),
        AfAxiom::A2(b, a) => from_parts(2, 0, b, a, 0),
        AfAxiom::A3(b, a) => from_parts(3, 0, b, a, 0),
        AfAxiom::A4(b, a) => from_parts(4, 0, b, a, 0),
        AfAxiom::A5(a, i, j) => from_parts(5, 0, a, i, j),
        AfAxiom::A6(a, i) => from_parts(6, 0, a, i, 0),
        AfAxiom::A7(a) => from_parts(7, 0, a, 0, 0),
        AfAxiom::A8(a, i, j) => from_parts(8, 0, a, i, j),
        AfAxiom::A9(a, i) => from_parts(9, 0, a, i, 0),
        AfAxiom::A10(a) => from_parts(10, 0, a, 0, 0),
        AfAxiom::A11(a) => from_parts(11, 0, a, 0, 0),
        AfAxiom::A12(a) => from_parts(12, 0, a, 0, 0),
        AfAxiom::A13(a) => from_parts(13, 0, a, 0, 0),
        AfAxiom::A14(part) => from_parts(14, 0, part, 0, 0),
    }
}

fn of_aba(axiom: &AbaAxiom) -> Digest
    ensures { result ≡ digests.aba_digest axiom.now }
{
    match axiom {
        AbaAxiom::B1(a) => from_parts(21, 0, *a, 0, 0),
        AbaAxiom::B2(a) => from_parts(22, 0, *a, 0, 0),
        AbaAxiom::B3(a) => from_parts(23, 0, *a, 0, 0),
        AbaAxiom::B4(k) => from_parts(24, closure_number(*k), 0, 0, 0),
        AbaAxiom::B5(k, r, x) => from_parts(25, closure_number(*k), *r, *x, 0),
        AbaAxiom::B6(k, r, x) => from_parts(26, closure_number(*k), *r, *x, 0),
        AbaAxiom::B7(k, r, i, j) => from_parts(27, closure_number(*k), *r, *i, *j),
        AbaAxiom::B8(k, r, i) => from_parts(28, closure_number(*k), *r, *i, 0),
        AbaAxiom::B9(k, x) => from_parts(29, closure_number(*k), *x, 0, 0),
        AbaAxiom::B9Con(a, c) => from_parts(30, 0, *a, *c, 0),
        AbaAxiom::B10(k, x, i, j) => from_parts(31, closure_number(*k), *x, *i, *j),
        AbaAxiom::B11(k, x, i) => from_parts(32, closure_number(*k), *x, *i, 0),
        AbaAxiom::B12(a, c) => from_parts(33, 0, *a, *c, 0),
        AbaAxiom::B13(a, c) => from_parts(34, 0, *a, *c, 0),
        AbaAxiom::B14(a) => from_parts(35, 0, *a, 0, 0),
        AbaAxiom::B15(a) => from_parts(36, 0, *a, 0, 0),
        AbaAxiom::B16(part) => from_parts(37, 0, *part, 0, 0),
        AbaAxiom::B17 { closure, x, .. } => from_parts(38, closure_number(*closure), *x, 0, 0),
        AbaAxiom::B18(k, a, i, j) => from_parts(39, closure_number(*k), *a, *i, *j),
        AbaAxiom::B19(k, a, i) => from_parts(40, closure_number(*k), *a, *i, 0),
    }
}
