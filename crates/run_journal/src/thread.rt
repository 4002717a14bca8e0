// The threads of a run.

ghost use Rattle.std.specs.Prelude.{◌≡◌, ◌↔◌, IsTrue};
ghost use Rattle.run_journal.specs.Threads.{own_object};

/// A thread of a run.
#[derive(Clone, Copy, Debug, PartialEq, Eq)]
pub enum Thread {
    /// The thread that makes the class objects and evaluates the expression.
    Main,
    /// The procedural thread of the object with this number.
    Of(u32),
    /// One release of a periodic thread: the number of its object, and how many releases of it came before.
    Release(u32, u32),
    /// What counts the ticks and makes the releases.
    Clock,
}

impl Thread {
    /// Whether both are one thread.
    pub fn is(self, other: Thread) -> bool
        ensures { IsTrue result ↔ (self ≡ other) }
    {
        self == other
    }

    /// The object on which the thread's end or failure stands: 0 for main and for the clock, which has none.
    pub fn own_object(self) -> u32
        ensures { result ≡ own_object self }
    {
        match self {
            Thread::Main | Thread::Clock => 0,
            Thread::Of(object) | Thread::Release(object, _) => object,
        }
    }
}
