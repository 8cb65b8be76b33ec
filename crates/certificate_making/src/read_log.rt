//! How a log is read.

ghost use Rattle.std.specs.Prelude.{◌≡◌, IfOk, length};
ghost use Rattle.oracle_face.specs.Logs.{IsLog, IsNumberOf, IsSameClause, hints_of, step_at};
ghost use Rattle.session_log.specs.Guards.{IsGuarded};
ghost use Rattle.certificate_making.specs.ClaimSides.{IsAskOf};
ghost use Rattle.certificate_making.specs.Origins.{IsOrigin};

use lists::{Items, Memory};
use meaning_atoms::AtomLit;
use oracle_face::{AskId, StepSource};
use plain_lits::StepId;
use std::alloc::Global;

/// A log that can be read step by step. It means the framework and the log, which is guarded.
pub trait ReadLog {
    ghost use Rattle.semantics.specs.Frameworks.{Framework};
    ghost use Rattle.oracle_face.specs.Logs.{OracleLog};

    /// The framework.
    ghost framework: { Self → Framework };
    /// The log.
    ghost log: { Self → OracleLog };

    /// The number of steps.
    fn len(&self) -> usize
        ensures steps { result ≡ length (log self.now).steps }
        ensures form { IsLog (framework self.now) (log self.now) }
        ensures guards { IsGuarded (log self.now) };

    /// The clause of a step, with its literals in any order.
    fn clause(&self, alloc: Global, step: StepId) -> Result<Items<AtomLit>, Memory>
        requires { IsNumberOf (log self.now).steps step }
        ensures { IfOk result (λ clause. IsSameClause clause (step_at (log self.now).steps step).clause) };

    /// Where a step comes from.
    fn origin(&self, alloc: Global, step: StepId) -> Result<StepSource, Memory>
        requires { IsNumberOf (log self.now).steps step }
        ensures { IfOk result (IsOrigin (step_at (log self.now).steps step).source) };

    /// The steps that a derived step follows from. Any other has none.
    fn hints(&self, step: StepId) -> &[StepId]
        requires { IsNumberOf (log self.now).steps step }
        ensures { result.now ≡ hints_of (step_at (log self.now).steps step).source };

    /// The number of side clauses.
    fn sides(&self) -> usize
        ensures { result ≡ length (log self.now).sides };

    /// The number of the side clause that has these literals, whatever their order, if there is one.
    fn ask_of(&self, alloc: Global, literals: &[AtomLit]) -> Result<Option<AskId>, Memory>
        ensures { IfOk result (IsAskOf (log self.now).sides literals.now) };
}
