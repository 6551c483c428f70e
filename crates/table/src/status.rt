// The status query: free positions and lines, waiting calls, running timers. What it gives of a table is defined in specs/Status.antt.

// What a status query gives of a sound table.
#[derive(Clone, Copy, Default)]
pub struct Status {
    // free ones
    pub positions: u32,
    pub lines: u32,
    // calls in state 1 or 2
    pub waiting: u32,
    // running ones
    pub timers: u32,
}
