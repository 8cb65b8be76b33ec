//! Sessions run at the same time: one is answered while another stands inside its query.

use argue_outside::{Pace, Point};
use bench_runs::run_script;
use crossbeam_utils::Backoff;
use dung_notions::AfPlain;
use edit_rules::Framework;
use lists::{Bytes, Memory};
use script_text::{Script, read_script};
use session_replies::transcript_text;
use std::alloc::Global;
use std::mem::forget;
use std::sync::Wait;
use std::sync::atomic::{AtomicBool, Ordering};
use std::test::Fail;
use std::thread::Threads;

/// Waits until a flag is up; whether it came up in 1,000,000 turns, of which each is a load and a back-off.
fn comes_up(flag: &AtomicBool) -> bool {
    let backoff = Backoff::new();
    for _ in 0..1_000_000u32 {
        if flag.load(Ordering::SeqCst) {
            return true;
        }
        backoff.snooze();
    }
    false
}

/// A gate that holds session 2 before its edit until session 1 stands inside its query, and session 1 there until session
/// 2 was answered. It gives up where either wait is in vain.
#[derive(Drop)]
struct Gate {
    inside: AtomicBool,
    answered: AtomicBool,
    gave_up: AtomicBool,
}

impl Gate {
    /// Holds a session until a flag is up.
    fn hold(&self, flag: &AtomicBool) {
        if !comes_up(flag) {
            self.gave_up.store(true, Ordering::SeqCst);
        }
    }
}

impl Pace for Gate {
    fn at(&self, session: u32, point: Point) {
        match (session, point) {
            (1, Point::InAsk) => {
                self.inside.store(true, Ordering::SeqCst);
                self.hold(&self.answered);
            }
            (2, Point::BeforeEdit) => self.hold(&self.inside),
            (2, Point::AfterAsk) => self.answered.store(true, Ordering::SeqCst),
            _ => {}
        }
    }
}

/// The transcript of a script on two arguments, at the gate's pace.
fn transcript<R: Threads + Wait + Sync>(
    rt: &R,
    alloc: Global,
    script: &Script,
    gate: &Gate,
) -> Result<Bytes, Memory> {
    let opening = Framework::Af(AfPlain::of_lists(alloc, &[1, 2], &[])?);
    let told = run_script(rt, alloc, opening, script, 1_000, gate)?;
    let text = transcript_text(alloc, &told.replies, &told.history.entries);
    forget(told);
    text
}

/// The same of a script's text.
fn transcript_of<R: Threads + Wait + Sync>(
    rt: &R,
    alloc: Global,
    text: &str,
    gate: &Gate,
) -> Result<Bytes, Fail> {
    let script = read_script(alloc, text.as_bytes(), 1)?;
    Ok(transcript(rt, alloc, &script, gate)?)
}

/// Session 2 edits and is answered while session 1 stands inside its query, which is about the framework before the edit.
#[test]
fn answered_meanwhile(rt: HostRuntime) -> Result<(), Fail> {
    let gate = Gate {
        inside: AtomicBool::new(false),
        answered: AtomicBool::new(false),
        gave_up: AtomicBool::new(false),
    };
    let script = "1 ask SE-PR\n2 att 1 2\n2 ask SE-PR\n";
    let told = transcript_of(&rt, rt.alloc(), script, &gate)?;
    assert!(rt; !gate.gave_up.load(Ordering::SeqCst));
    let wanted = "session 1\nat 0\nw 1 2\nsession 2\nat 1\nOK\nat 1\nw 1\nhistory\n2 att 1 2\n";
    assert!(rt; told.as_slice() == wanted.as_bytes());
    Ok(())
}
