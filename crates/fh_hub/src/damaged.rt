// How a command ends whose journal isn't mounted.
ghost use Rattle.std.specs.Prelude.{◌≡◌, ◌≤◌, IfOk, string_bytes};
ghost use Rattle.fh_base.specs.Ends.{Concludes};
ghost use Rattle.fh_hub.specs.Damaged.{Tells, damaged_line, event_name, fixed_line, frame_name, rule_name, unmounted_line};

use crate::faults::{HubFault, HubRule};
use fh_base::{PlainEnd, Sink, write_last_line};
use fh_event::EventFault;
use fh_journal::FrameRule;
use std::alloc::{AllocError, Global};

impl HubFault {
    ghost use Rattle.fh_hub.specs.Damaged.{unmounted_code};

    /// The exit status of a command whose journal isn't mounted.
    pub fn code(self) -> u8
        ensures { result ≡ unmounted_code self }
    {
        match self {
            HubFault::BadHeader | HubFault::BadFrame { .. } => 4,
            HubFault::DiskFault => PlainEnd::DiskFault.code(),
            HubFault::NoMemory => PlainEnd::NoMemory.code(),
        }
    }
}

/// Writes the last line of a command whose journal isn't mounted, and gives the fault that it tells: that
/// of a frame is told as want of memory where its line finds none. Where the sink fails the line is cut.
pub fn write_unmounted<O: Sink>(alloc: Global, sink: &mut O, fault: HubFault) -> HubFault
    ensures told { Tells fault result }
    ensures written { Concludes (O.written sink.old) (O.written sink.new) (unmounted_line result)
        (O.write_faults sink.old) (O.write_faults sink.new) }
    ensures count { O.write_faults sink.old ≤ O.write_faults sink.new }
{
    let HubFault::BadFrame { at, rule } = fault else {
        write_last_line(sink, fixed_line(fault));
        return fault;
    };
    match damaged_line(alloc, at, rule) {
        Ok(line) => {
            write_last_line(sink, line.as_str());
            fault
        }
        Err(_) => {
            write_last_line(sink, PlainEnd::NoMemory.last_line());
            HubFault::NoMemory
        }
    }
}

// That of a wrong frame is `damaged_line`.
fn fixed_line(fault: HubFault) -> &'static str
    ensures { result.now ≡ fixed_line fault }
{
    match fault {
        HubFault::BadHeader => "damaged 0 BadHeader\n",
        HubFault::BadFrame { .. } => "",
        HubFault::DiskFault => PlainEnd::DiskFault.last_line(),
        HubFault::NoMemory => PlainEnd::NoMemory.last_line(),
    }
}

// The last line where a frame of the journal is wrong: the place of its gate, and the rule in one word.
fn damaged_line(alloc: Global, at: u64, rule: HubRule) -> Result<String, AllocError>
    ensures { IfOk result (λ line. string_bytes line ≡ damaged_line at rule) }
{
    let name = rule_name(rule);
    format!(in alloc; "damaged {at} {name}\n")
}

fn rule_name(rule: HubRule) -> &'static str
    ensures { result.now ≡ rule_name rule }
{
    match rule {
        HubRule::Frame(rule) => frame_name(rule),
        HubRule::Event(fault) => event_name(fault),
        HubRule::Refused => "Refused",
    }
}

fn frame_name(rule: FrameRule) -> &'static str
    ensures { result.now ≡ frame_name rule }
{
    match rule {
        FrameRule::Cut => "Cut",
        FrameRule::Length { .. } => "Length",
    }
}

fn event_name(fault: EventFault) -> &'static str
    ensures { result.now ≡ event_name fault }
{
    match fault {
        EventFault::BadKind { .. } => "Kind",
        EventFault::ShortField { .. } => "Short",
        EventFault::LongField { .. } => "Long",
        EventFault::BadField { .. } => "Field",
        EventFault::Trailing { .. } => "Trailing",
        EventFault::NoMemory => "NoMemory",
    }
}
