// How commands end: the statuses that several of them share, and the last line that tells one.
ghost use Rattle.std.specs.Prelude.{◌≡◌, ◌≤◌, [], length};
ghost use Rattle.fh_base.specs.Ends.{Concludes, plain_code, plain_line};

use crate::{Sink, write_all};

/// An end whose last line is always the same. docs/commands.md has the table of all statuses.
#[derive(Clone, Copy, Debug, PartialEq, Eq)]
pub enum PlainEnd {
    Finished,
    /// The words are no command.
    Usage,
    ReadFault,
    DiskFault,
    WriteFault,
    LongLine,
    NoMemory,
    /// A worker couldn't be started.
    SpawnFault,
    /// A connection couldn't be accepted.
    DoorFault,
}

impl PlainEnd {
    /// The exit status.
    pub fn code(self) -> u8
        ensures { result ≡ plain_code self }
    {
        match self {
            PlainEnd::Finished => 0,
            PlainEnd::Usage => 2,
            PlainEnd::ReadFault => 5,
            PlainEnd::DiskFault => 6,
            PlainEnd::WriteFault => 7,
            PlainEnd::LongLine => 8,
            PlainEnd::NoMemory => 9,
            PlainEnd::SpawnFault => 10,
            PlainEnd::DoorFault => 11,
        }
    }

    /// The last line with its line feed, or nothing.
    pub fn last_line(self) -> &'static str
        ensures { result.now ≡ plain_line self }
    {
        match self {
            PlainEnd::Finished | PlainEnd::WriteFault => "",
            PlainEnd::Usage => "usage\n",
            PlainEnd::ReadFault => "read fault\n",
            PlainEnd::DiskFault => "disk fault\n",
            PlainEnd::LongLine => "line too long\n",
            PlainEnd::NoMemory => "no memory\n",
            PlainEnd::SpawnFault => "spawn fault\n",
            PlainEnd::DoorFault => "door fault\n",
        }
    }
}

/// Writes the last line of a command. Where the sink fails the line is cut, and the status stays.
pub fn write_last_line<O: Sink>(sink: &mut O, line: &str)
    ensures written { Concludes (O.written sink.old) (O.written sink.new) line.now
        (O.write_faults sink.old) (O.write_faults sink.new) }
    ensures passed { line.now ≡ [] → O.write_faults sink.new ≡ O.write_faults sink.old }
    ensures count { O.write_faults sink.old ≤ O.write_faults sink.new }
    ensures beside { O.beside_writing sink.new ≡ O.beside_writing sink.old }
{
    let _written = write_all(sink, line.as_bytes());
}
