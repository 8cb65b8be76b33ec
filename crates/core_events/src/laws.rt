//! What the events of a machine are to the core.

ghost use Rattle.core_events.specs.Runs.{MachinesRun};

/// Whatever events a machine takes from its opening on, one after the other, are a run of the core: what holds of every
/// run of the core holds of every machine. The function does nothing; its contract is the law.
pub fn machines_make_runs()
    ensures { MachinesRun }
{}
