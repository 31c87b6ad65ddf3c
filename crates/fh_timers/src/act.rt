// What a change makes of the rows.
use crate::TimerRow;

#[derive(Clone, Copy)]
pub(crate) enum Act {
    /// All rows stay.
    Keep,
    /// The row of its function is this one now.
    Set { row: TimerRow },
    /// The function has no row now.
    Remove { function: u64 },
}
