// Threads in requests.

use row_words::Line;
use run_journal::Thread;

/// The thread that stands next: `main`, `clock`, `of N` or `release N N`.
pub fn thread_by(line: &mut Line<'_>) -> Thread {
    match line.word() {
        "main" => Thread::Main,
        "clock" => Thread::Clock,
        "of" => Thread::Of(line.number()),
        "release" => Thread::Release(line.number(), line.number()),
        _ => {
            line.refuse();
            Thread::Main
        }
    }
}
