//! How a run ends, and what it keeps.

ghost use Rattle.std.specs.Prelude.{◌≡◌};
ghost use Rattle.argue_program.specs.Rows.{nothing_kept};

use argue_commands::{KeptSession, Status};
use bench_runs::ScriptTranscript;

/// What a run keeps: the session of its query, or what the sessions of its script or large input came to, where it had
/// any.
#[derive(Drop)]
pub struct Transcript {
    pub session: Option<KeptSession>,
    pub script: Option<ScriptTranscript>,
}

impl Transcript {
    /// That of a run which keeps nothing.
    pub(crate) fn nothing() -> Transcript
        ensures { result ≡ nothing_kept }
    {
        Transcript {
            session: None,
            script: None,
        }
    }
}

/// How a run ended, and what it keeps.
#[derive(Drop)]
pub struct Ended {
    pub status: Status,
    pub kept: Transcript,
}
