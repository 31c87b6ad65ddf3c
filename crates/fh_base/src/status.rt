// How a command ends.

/// The exit status of a command: 0 where its work was done, and else a number of the table in
/// docs/commands.md.
#[derive(Clone, Copy, Debug, PartialEq, Eq)]
pub struct Status {
    pub code: u8,
}
