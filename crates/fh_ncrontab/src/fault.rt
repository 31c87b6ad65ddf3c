/// Why the text of a field isn't read.
#[derive(Clone, Copy, Debug, PartialEq, Eq)]
pub enum FieldFault {
    /// A part is in no form of the grammar, or has a number outside the field.
    Bad,
    /// A range has a first value that is greater than its second.
    Backward,
}

/// Why the text of a schedule isn't read. Fields are numbered from 0 for the second to 5 for the
/// day of the week.
#[derive(Clone, Copy, Debug, PartialEq, Eq)]
pub enum CronFault {
    /// The text has neither five fields nor six.
    FieldCount { given: u64 },
    BadField { field: u8 },
    BackwardRange { field: u8 },
    /// No second from 1970 to the end of the year 9999 is in the schedule.
    NeverRuns,
}
