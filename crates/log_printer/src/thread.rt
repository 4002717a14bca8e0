// The text of a thread.

ghost use Rattle.std.specs.Prelude.{◌≡◌, ◌++◌, IfOk, OnErr, OnOk};
ghost use Rattle.std.specs.String.{string_bytes};
ghost use Rattle.run_journal.specs.declared.thread.Thread.TheVariants as thread;
ghost use Rattle.report_texts.specs.Lines.{thread_text};

use run_journal::Thread;
use std::alloc::Global;
use vdm_kinds::OutOfMemory;

/// Appends the text of a thread, as `main`, `t3`, `r3.0` or `clock`. A refusal leaves the string as before.
pub fn push_thread(alloc: Global, text: &mut String, thread: Thread) -> Result<(), OutOfMemory>
    ensures ok { OnOk result (string_bytes text.new ≡ string_bytes text.old ++ thread_text thread) }
    ensures err { OnErr result (string_bytes text.new ≡ string_bytes text.old) }
{
    let thread = thread_string(alloc, thread)?;
    text.push_str(thread.as_str())?;
    Ok(())
}

fn thread_string(alloc: Global, thread: Thread) -> Result<String, OutOfMemory>
    ensures { IfOk result (λ text. string_bytes text ≡ thread_text thread) }
{
    match thread {
        Thread::Main => Ok(String::from_str(alloc, "main")?),
        Thread::Of(object) => Ok(format!(in alloc; "t{object}")?),
        Thread::Release(object, k) => release_string(alloc, object, k),
        Thread::Clock => Ok(String::from_str(alloc, "clock")?),
    }
}

// as `r3.0`, for release 0 of object 3
fn release_string(alloc: Global, object: u32, k: u32) -> Result<String, OutOfMemory>
    ensures { IfOk result (λ text. string_bytes text ≡ thread_text (thread.Release object k)) }
{
    Ok(format!(in alloc; "r{object}.{k}")?)
}
