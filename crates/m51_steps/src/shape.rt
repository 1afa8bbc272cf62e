//! What is written of a run.
ghost use Rattle.std.specs.Prelude.{◌≡◌};
ghost use Rattle.m51_steps.specs.Shapes.{in_window};

/// The states that have a line, by their numbers of steps: from the first to the last.
///
/// Source: own choice ("The trace of a run").
#[derive(Clone, Copy)]
pub struct Window {
    pub first: u32,
    pub last: u32,
}

/// What is written of a run, beside what `build` writes.
///
/// Source: own choice ("The trace of a run").
#[derive(Clone, Copy)]
pub enum Shape {
    /// A line for each state of the window, without internal RAM.
    Lines(Window),
    /// The same with the active units, and with the bytes of internal RAM that have changed since the line before.
    Ram(Window),
    /// No line of a state, but how often each instruction began, and how many cycles it took.
    Counts,
}

// The state after this number of steps is one of the window.
pub(crate) fn is_in_window(window: &Window, steps: u32) -> bool
    ensures { result ≡ in_window window.now steps }
{
    window.first <= steps && steps <= window.last
}
