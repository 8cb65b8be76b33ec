//! The tasks and their names.

ghost use Rattle.std.specs.Prelude.{◌≡◌, ◌↔◌, IfOk, IfSome, IsTrue, OnErr};
ghost use Rattle.iccma_tasks.specs.Tasks.{IsTask, IsTaskOf, problem_name, semantics_name, task_name};
ghost use Rattle.iccma_tasks.specs.Tasks.{tasks_line, fault_name};

use thiserror::Error;

/// What is asked.
#[derive(Clone, Copy, PartialEq, Eq)]
pub enum Problem {
    /// `DC`: does some extension accept the query?
    Credulous,
    /// `DS`: does every extension accept the query?
    Sceptical,
    /// `SE`: some extension, where there is one.
    SomeExtension,
    /// `EE`: all extensions, or that there is none.
    AllExtensions,
}

/// Which sets are the extensions.
#[derive(Clone, Copy, PartialEq, Eq)]
pub enum Semantics {
    /// `CO`: the complete sets.
    Complete,
    /// `GR`: the grounded set.
    Grounded,
    /// `PR`: the preferred sets.
    Preferred,
    /// `ST`: the stable sets.
    Stable,
    /// `SST`: the semi-stable sets.
    SemiStable,
    /// `ID`: the ideal set.
    Ideal,
    /// `STG`: the stage sets.
    Stage,
}

/// The kinds of framework.
#[derive(Clone, Copy, PartialEq, Eq)]
pub enum Kind {
    /// Abstract: arguments and attacks.
    Af,
    /// Assumption-based: assumptions with contraries, and rules.
    Aba,
}

/// A problem under a semantics.
#[derive(Clone, Copy, PartialEq, Eq)]
pub struct Task {
    /// What is asked.
    pub problem: Problem,
    /// Which sets are the extensions.
    pub semantics: Semantics,
}

/// Why bytes are no task.
#[derive(Clone, Copy, Debug, PartialEq, Eq, Error)]
pub enum TaskFault {
    /// The bytes are the name of no task.
    #[error("unknown task")]
    UnknownTask,
}

impl Problem {
    /// The problem of that name, where there is one.
    fn read(bytes: &[u8]) -> Option<Problem>
        ensures named { IfSome result (λ problem. problem_name problem ≡ bytes.now) }
        ensures read { (problem : Problem) → problem_name problem ≡ bytes.now → result ≡ Some problem }
    {
        match bytes {
            b"DC" => Some(Problem::Credulous),
            b"DS" => Some(Problem::Sceptical),
            b"SE" => Some(Problem::SomeExtension),
            b"EE" => Some(Problem::AllExtensions),
            _ => None,
        }
    }
}

impl Semantics {
    /// The semantics of that name, where there are such.
    fn read(bytes: &[u8]) -> Option<Semantics>
        ensures named { IfSome result (λ semantics. semantics_name semantics ≡ bytes.now) }
        ensures read { (semantics : Semantics) → semantics_name semantics ≡ bytes.now → result ≡ Some semantics }
    {
        match bytes {
            b"CO" => Some(Semantics::Complete),
            b"GR" => Some(Semantics::Grounded),
            b"PR" => Some(Semantics::Preferred),
            b"ST" => Some(Semantics::Stable),
            b"SST" => Some(Semantics::SemiStable),
            b"ID" => Some(Semantics::Ideal),
            b"STG" => Some(Semantics::Stage),
            _ => None,
        }
    }
}

impl Task {
    /// The task of that problem and semantics.
    fn of(problem: Problem, semantics: Semantics) -> Task
        ensures { result ≡ record { problem = problem; semantics = semantics } }
    {
        Task { problem, semantics }
    }

    /// The task whose name the bytes are. `UnknownTask` where they are the name of none.
    pub fn read(bytes: &[u8]) -> Result<Task, TaskFault>
        ensures named { IfOk result (λ task. IsTask task × (task_name task ≡ bytes.now)) }
        ensures read { (task : Task) → IsTask task → task_name task ≡ bytes.now → result ≡ Ok task }
        ensures unknown { OnErr result ((task : Task) → IsTask task → ¬ (task_name task ≡ bytes.now)) }
    {
        if bytes.len() < 3 {
            return Err(TaskFault::UnknownTask);
        }
        if bytes[2] != b'-' {
            return Err(TaskFault::UnknownTask);
        }
        let Some(problem) = Problem::read(&bytes[..2]) else {
            return Err(TaskFault::UnknownTask);
        };
        let Some(semantics) = Semantics::read(&bytes[3..]) else {
            return Err(TaskFault::UnknownTask);
        };
        let task = Task::of(problem, semantics);
        if !task.is_for(Kind::Af) {
            return Err(TaskFault::UnknownTask);
        }
        Ok(task)
    }

    /// The name of the problem and of the semantics with a dash between, as `DC-CO`. That of a task is read again.
    pub fn name(self) -> &'static [u8]
        ensures { result.now ≡ task_name self }
    {
        match (self.problem, self.semantics) {
            (Problem::Credulous, Semantics::Complete) => b"DC-CO",
            (Problem::Credulous, Semantics::Grounded) => b"DC-GR",
            (Problem::Credulous, Semantics::Preferred) => b"DC-PR",
            (Problem::Credulous, Semantics::Stable) => b"DC-ST",
            (Problem::Credulous, Semantics::SemiStable) => b"DC-SST",
            (Problem::Credulous, Semantics::Ideal) => b"DC-ID",
            (Problem::Credulous, Semantics::Stage) => b"DC-STG",
            (Problem::Sceptical, Semantics::Complete) => b"DS-CO",
            (Problem::Sceptical, Semantics::Grounded) => b"DS-GR",
            (Problem::Sceptical, Semantics::Preferred) => b"DS-PR",
            (Problem::Sceptical, Semantics::Stable) => b"DS-ST",
            (Problem::Sceptical, Semantics::SemiStable) => b"DS-SST",
            (Problem::Sceptical, Semantics::Ideal) => b"DS-ID",
            (Problem::Sceptical, Semantics::Stage) => b"DS-STG",
            (Problem::SomeExtension, Semantics::Complete) => b"SE-CO",
            (Problem::SomeExtension, Semantics::Grounded) => b"SE-GR",
            (Problem::SomeExtension, Semantics::Preferred) => b"SE-PR",
            (Problem::SomeExtension, Semantics::Stable) => b"SE-ST",
            (Problem::SomeExtension, Semantics::SemiStable) => b"SE-SST",
            (Problem::SomeExtension, Semantics::Ideal) => b"SE-ID",
            (Problem::SomeExtension, Semantics::Stage) => b"SE-STG",
            (Problem::AllExtensions, Semantics::Complete) => b"EE-CO",
            (Problem::AllExtensions, Semantics::Grounded) => b"EE-GR",
            (Problem::AllExtensions, Semantics::Preferred) => b"EE-PR",
            (Problem::AllExtensions, Semantics::Stable) => b"EE-ST",
            (Problem::AllExtensions, Semantics::SemiStable) => b"EE-SST",
            (Problem::AllExtensions, Semantics::Ideal) => b"EE-ID",
            (Problem::AllExtensions, Semantics::Stage) => b"EE-STG",
        }
    }

    /// Whether it is asked of frameworks of that kind. All problems are, by all semantics, but for two: there is only one
    /// grounded set and one ideal set to enumerate; and assumption-based frameworks have no semi-stable and stage sets
    /// here.
    pub fn is_for(self, kind: Kind) -> bool
        ensures { IsTrue result ↔ IsTaskOf kind self }
    {
        match (kind, self.problem, self.semantics) {
            (_, Problem::AllExtensions, Semantics::Grounded | Semantics::Ideal) => false,
            (Kind::Aba, _, Semantics::SemiStable | Semantics::Stage) => false,
            _ => true,
        }
    }
}

impl TaskFault {
    /// The name of the fault, as it is printed.
    pub fn name(self) -> &'static str
        ensures { result.now ≡ fault_name self }
    {
        match self {
            TaskFault::UnknownTask => "UnknownTask",
        }
    }
}

/// The names of all tasks in order, with commas between and in brackets, and LF at the end.
pub fn problems() -> &'static [u8]
    ensures { result.now ≡ tasks_line }
{
    b"[DC-CO,DC-GR,DC-PR,DC-ST,DC-SST,DC-ID,DC-STG,DS-CO,DS-GR,DS-PR,DS-ST,DS-SST,DS-ID,DS-STG,\
      SE-CO,SE-GR,SE-PR,SE-ST,SE-SST,SE-ID,SE-STG,EE-CO,EE-PR,EE-ST,EE-SST,EE-STG]\n"
}
