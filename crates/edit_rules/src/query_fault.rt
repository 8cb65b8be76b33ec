//! Which queries a framework takes.

ghost use Rattle.std.specs.Prelude.{◌≡◌, IfErr, OnOk};
ghost use Rattle.edit_rules.specs.Kinds.{framework_of};
ghost use Rattle.edit_rules.specs.Fitting.{Fits, IsFaultOf, fault_name, fault_number, unknown_fault};

use crate::framework::Framework;
use iccma_tasks::Query;

/// Why a query doesn't fit a framework. Of both causes the first in this order is told.
#[derive(Clone, Copy, PartialEq, Eq)]
pub enum QueryFault {
    /// Frameworks of that kind don't have the task.
    TaskNotForKind,
    /// The number that is asked about is no live argument of the abstract framework.
    UnknownArgument(u32),
    /// The number that is asked about is no atom of the assumption-based framework.
    UnknownAtom(u32),
}

/// Tells whether a query fits a framework: frameworks of its kind have the task, and it has what the query asks about.
/// `TaskNotForKind` comes exactly where they don't have the task; otherwise `UnknownArgument` exactly where an argument
/// of an abstract framework is asked about that isn't live, and `UnknownAtom` exactly where a number is asked about
/// that is no atom of an assumption-based one.
pub fn query_fits(framework: &Framework, query: &Query) -> Result<(), QueryFault>
    ensures fits { OnOk result (Fits (framework_of framework.now) query.now) }
    ensures fault { IfErr result (IsFaultOf (framework_of framework.now) query.now) }
{
    if !query.task().is_for(framework.kind()) {
        return Err(QueryFault::TaskNotForKind);
    }
    let Some(number) = query.number() else {
        return Ok(());
    };
    if framework.knows(number) {
        return Ok(());
    }
    Err(unknown(framework, number))
}

/// The fault of a number that the framework doesn't have.
fn unknown(framework: &Framework, number: u32) -> QueryFault
    ensures { result ≡ unknown_fault (framework_of framework.now) number }
{
    match framework {
        Framework::Af(_) => QueryFault::UnknownArgument(number),
        Framework::Aba(_) => QueryFault::UnknownAtom(number),
    }
}

impl QueryFault {
    /// The name of the fault, as it is printed.
    pub fn name(self) -> &'static str
        ensures { result.now ≡ fault_name self }
    {
        match self {
            QueryFault::TaskNotForKind => "TaskNotForKind",
            QueryFault::UnknownArgument(_) => "UnknownArgument",
            QueryFault::UnknownAtom(_) => "UnknownAtom",
        }
    }

    /// The number that the fault carries, if it carries one.
    pub fn number(self) -> Option<u32>
        ensures { result ≡ fault_number self }
    {
        match self {
            QueryFault::TaskNotForKind => None,
            QueryFault::UnknownArgument(number) | QueryFault::UnknownAtom(number) => Some(number),
        }
    }
}
