// The threads of a daemon.
use crate::metering::{FiguresWriter, start_writer};
use crate::notes::{NotesWriter, start_notes};
use crate::workers::{DriveWorker, start_workers};
use sd_serve::{Connections, Listening, Serving, TalkHolder, serve_each};
use std::sync::Wait;
use std::thread;
use std::thread::Threads;
use std::time::Clock;

/// Holds the talks of a run, while a worker works for each drive, a thread writes the notes of its volumes, and one writes the
/// figures if they are asked for. Ends once all talks have ended, all that could be placed is placed, and the last notes and
/// figures are written. If no thread can be made for one of these, no talk is held, and the answer is no.
pub(crate) fn hold_talks<
    W: Threads + Wait + Clock + Sync,
    K: TalkHolder + DriveWorker + FiguresWriter + NotesWriter,
>(
    host: &HostRuntime,
    rt: &W,
    listening: &Listening,
    serving: Serving<'_>,
    connections: &Connections,
    talks: &K,
) -> bool {
    thread::scope(thread::scope_env(), rt, move |writers| {
        let all = start_writer(writers, talks)
            && start_notes(writers, talks)
            && hold_beside_workers(host, rt, listening, serving, connections, talks);
        talks.end_notes();
        talks.end();
        all
    })
}

// Holds them beside the workers.
fn hold_beside_workers<W: Threads + Wait + Clock + Sync, K: TalkHolder + DriveWorker>(
    host: &HostRuntime,
    rt: &W,
    listening: &Listening,
    serving: Serving<'_>,
    connections: &Connections,
    talks: &K,
) -> bool {
    thread::scope(thread::scope_env(), rt, move |workers| {
        let all = start_workers(workers, talks);
        if all {
            talks.ready();
            serve_each(host, rt, listening, serving, connections, talks);
        }
        talks.close();
        all
    })
}
