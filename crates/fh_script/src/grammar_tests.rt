use super::*;
use fh_event::{Command, FunctionSettings};
use std::alloc::Global;
use std::test::Fail;

// A line as a test writes it: the variant's name and its fields in order, or the fault.
fn shown(rt: &HostRuntime, line: &[u8]) -> Result<String, Fail> {
    let alloc = rt.alloc();
    match line_ask(alloc, line) {
        Ok(LineAsk::Blank) => Ok(String::from_str(alloc, "blank")?),
        Ok(LineAsk::At { ms }) => Ok(format!(in alloc; "at {ms}")?),
        Ok(LineAsk::Ask(command)) => command_shown(alloc, &command),
        Err(fault) => Ok(format!(in alloc; "{fault:?}")?),
    }
}

fn command_shown(alloc: Global, command: &Command) -> Result<String, Fail> {
    let shown = match command {
        Command::MakeQueue { queue } => format!(in alloc; "MakeQueue [{}]", queue.as_str())?,
        Command::Put {
            queue,
            delay,
            ttl,
            text,
        } => format!(in alloc;
            "Put [{}] {delay} {ttl:?} [{}]",
            queue.as_str(),
            text.as_str()
        )?,
        Command::Take { queue, count, hold } => {
            format!(in alloc; "Take [{}] {count} {hold}", queue.as_str())?
        }
        Command::Update {
            queue,
            number,
            receipt,
            hold,
            text,
        } => {
            let text = text.as_ref().map(|text| text.as_str());
            format!(in alloc;
                "Update [{}] {number} {receipt} {hold} {text:?}",
                queue.as_str()
            )?
        }
        Command::Delete {
            queue,
            number,
            receipt,
        } => format!(in alloc; "Delete [{}] {number} {receipt}", queue.as_str())?,
        Command::Clear { queue } => format!(in alloc; "Clear [{}]", queue.as_str())?,
        Command::Peek { queue, count } => {
            format!(in alloc; "Peek [{}] {count}", queue.as_str())?
        }
        Command::Locate { number } => format!(in alloc; "Locate {number}")?,
        Command::PutBlob {
            container,
            blob,
            text,
        } => format!(in alloc;
            "PutBlob [{}] [{}] [{}]",
            container.as_str(),
            blob.as_str(),
            text.as_str()
        )?,
        Command::DeleteBlob { container, blob } => {
            format!(in alloc; "DeleteBlob [{}] [{}]", container.as_str(), blob.as_str())?
        }
        Command::GetBlob { container, blob } => {
            format!(in alloc; "GetBlob [{}] [{}]", container.as_str(), blob.as_str())?
        }
        Command::Note {
            function,
            container,
            blob,
        } => format!(in alloc;
            "Note [{}] [{}] [{}]",
            function.as_str(),
            container.as_str(),
            blob.as_str()
        )?,
        Command::Unnoted {
            function,
            container,
        } => format!(in alloc; "Unnoted [{}] [{}]", function.as_str(), container.as_str())?,
        Command::Acquire {
            lease,
            holder,
            seconds,
        } => format!(in alloc; "Acquire [{}] {holder} {seconds}", lease.as_str())?,
        Command::RenewLease { lease, holder } => {
            format!(in alloc; "RenewLease [{}] {holder}", lease.as_str())?
        }
        Command::ReleaseLease { lease, holder } => {
            format!(in alloc; "ReleaseLease [{}] {holder}", lease.as_str())?
        }
        Command::Arm { function } => format!(in alloc; "Arm [{}]", function.as_str())?,
        Command::Tick { function } => format!(in alloc; "Tick [{}]", function.as_str())?,
        Command::Session => String::from_str(alloc, "Session")?,
        Command::Fetch { function } => format!(in alloc; "Fetch [{}]", function.as_str())?,
        Command::Begin { .. } | Command::Finish { .. } | Command::Renewals => {
            return Err("no line stands for it".into());
        }
        Command::Configure { function, settings } => {
            let settings = settings_shown(alloc, &settings)?;
            format!(in alloc; "Configure [{}] {}", function.as_str(), settings.as_str())?
        }
    };
    Ok(shown)
}

fn settings_shown(alloc: Global, settings: &FunctionSettings) -> Result<String, Fail> {
    let shown = match settings {
        FunctionSettings::Queue {
            queue,
            batch,
            threshold,
            limit,
            retry,
            singleton,
        } => format!(in alloc;
            "Queue [{}] {batch} {threshold} {limit} {retry} {singleton}",
            queue.as_str()
        )?,
        FunctionSettings::Blob {
            batch,
            threshold,
            limit,
            retry,
            singleton,
        } => format!(in alloc; "Blob {batch} {threshold} {limit} {retry} {singleton}")?,
        FunctionSettings::Timer {
            masks,
            startup,
            monitor,
            singleton,
        } => {
            let [second, minute, hour, day, month, weekday] = masks;
            format!(in alloc;
                "Timer {second} {minute} {hour} {day} {month} {weekday} {startup} {monitor} {singleton}"
            )?
        }
    };
    Ok(shown)
}

// The lines of a table that aren't shown as the table says.
fn expect(rt: &HostRuntime, cases: &[(&[u8], &str)]) -> Result<(), Fail> {
    for (line, expected) in cases {
        let found = shown(rt, line)?;
        if found.as_str() != *expected {
            return Err(Fail::from(format!(in rt.alloc(); "{found} in place of {expected}")?));
        }
    }
    Ok(())
}

#[test]
fn each_verb_has_its_command(rt: HostRuntime) -> Result<(), Fail> {
    let cases: [(&[u8], &str); 26] = [
        (b"at 0", "at 0"),
        (b"at 253402300799999", "at 253402300799999"),
        (b"queue orders", "MakeQueue [orders]"),
        (b"put orders 5 60 hi", "Put [orders] 5 Some(60) [hi]"),
        (b"take orders 2 10", "Take [orders] 2 10"),
        (b"peek orders 3", "Peek [orders] 3"),
        (b"update orders 1 2 40", "Update [orders] 1 2 40 None"),
        (
            b"update orders 1 2 40 hi",
            "Update [orders] 1 2 40 Some(\"hi\")",
        ),
        (b"delete orders 1 2", "Delete [orders] 1 2"),
        (b"clear orders", "Clear [orders]"),
        (b"where 7", "Locate 7"),
        (b"blob inbox a.txt hi", "PutBlob [inbox] [a.txt] [hi]"),
        (b"unblob inbox a%20b", "DeleteBlob [inbox] [a b]"),
        (b"get inbox a.txt", "GetBlob [inbox] [a.txt]"),
        (b"note f inbox a.txt", "Note [f] [inbox] [a.txt]"),
        (b"unnoted f inbox", "Unnoted [f] [inbox]"),
        (b"acquire l 7 15", "Acquire [l] 7 15"),
        (b"renew l 7", "RenewLease [l] 7"),
        (b"release l 7", "ReleaseLease [l] 7"),
        (
            b"configure f queue orders 16 8 3 0 60",
            "Configure [f] Queue [orders] 16 8 3 0 60",
        ),
        (
            b"configure f blob 16 8 3 0 0",
            "Configure [f] Blob 16 8 3 0 0",
        ),
        (
            b"configure f timer 0%2030%201%202%203%204 0 1 15",
            "Configure [f] Timer 1 1073741824 2 4 8 16 false true 15",
        ),
        (b"arm f", "Arm [f]"),
        (b"tick f", "Tick [f]"),
        (b"session", "Session"),
        (b"fetch f", "Fetch [f]"),
    ];
    expect(&rt, &cases)
}

#[test]
fn a_dash_is_a_default_in_four_places(rt: HostRuntime) -> Result<(), Fail> {
    let cases: [(&[u8], &str); 10] = [
        (b"put orders - - a", "Put [orders] 0 Some(604800) [a]"),
        (b"put orders 0 -1 a", "Put [orders] 0 None [a]"),
        (b"take orders - -", "Take [orders] 1 30"),
        (b"peek orders -", "Peek [orders] 1"),
        (b"update orders 1 2 -", "Update [orders] 1 2 30 None"),
        (
            b"update orders 1 2 - -",
            "Update [orders] 1 2 30 Some(\"-\")",
        ),
        (b"update orders - 2 3", "BadNumber"),
        (b"delete orders 1 -", "BadNumber"),
        (b"where -", "BadNumber"),
        (b"at -", "BadNumber"),
    ];
    expect(&rt, &cases)
}

#[test]
fn a_number_has_1_to_15_digits(rt: HostRuntime) -> Result<(), Fail> {
    let cases: [(&[u8], &str); 9] = [
        (b"where 000000000000007", "Locate 7"),
        (b"where 999999999999999", "Locate 999999999999999"),
        (b"where 0000000000000007", "BadNumber"),
        (b"where 1000000000000000", "BadNumber"),
        (b"where +1", "BadNumber"),
        (b"where -1", "BadNumber"),
        (b"where 1a", "BadNumber"),
        (b"where %31", "BadNumber"),
        (b"put orders 0 -2 a", "BadNumber"),
    ];
    expect(&rt, &cases)
}

#[test]
fn a_text_is_decoded(rt: HostRuntime) -> Result<(), Fail> {
    let cases: [(&[u8], &str); 11] = [
        (b"queue %", "MakeQueue []"),
        (b"put % 0 -1 %", "Put [] 0 None []"),
        (b"queue a%20b", "MakeQueue [a b]"),
        (b"queue %25", "MakeQueue [%]"),
        (b"queue %C3%a9", "MakeQueue [\u{e9}]"),
        (b"queue \xc3\xa9", "MakeQueue [\u{e9}]"),
        (b"queue a%", "MakeQueue [a%]"),
        (b"queue %%", "MakeQueue [%%]"),
        (b"queue %zz", "MakeQueue [%zz]"),
        (b"queue %2%41", "MakeQueue [%2A]"),
        (b"queue %C3", "BadText"),
    ];
    expect(&rt, &cases)
}

#[test]
fn the_first_fault_decides(rt: HostRuntime) -> Result<(), Fail> {
    let cases: [(&[u8], &str); 33] = [
        (b"frob", "BadWord"),
        (b"Queue orders", "BadWord"),
        (b"%71ueue orders", "BadWord"),
        (b"queue", "BadCount"),
        (b"queue a b", "BadCount"),
        (b"at", "BadCount"),
        (b"put orders 0", "BadCount"),
        (b"update orders 1 2", "BadCount"),
        (b"update orders 1 2 3 a b", "BadCount"),
        (b"frob \xff", "BadText"),
        (b"queue \xff b", "BadText"),
        (b"frob %ff x", "BadWord"),
        (b"put %ff x", "BadCount"),
        (b"put %ff x -1 a", "BadText"),
        (b"put orders x - %ff", "BadNumber"),
        (b"put orders x -1 a", "BadNumber"),
        (b"put orders 0 -1 %ff", "BadText"),
        (b"blob inbox a.txt", "BadCount"),
        (b"acquire l 7 -", "BadNumber"),
        (b"configure", "BadCount"),
        (b"configure f", "BadCount"),
        (b"configure f frob", "BadWord"),
        (b"configure f timer 0 0 0", "BadCount"),
        (
            b"configure f timer 60%20*%20*%20*%20*%20* 2 x y",
            "BadSchedule",
        ),
        (
            b"configure f timer 0%200%200%2030%202%20* 0 0 0",
            "BadSchedule",
        ),
        (
            b"configure f timer *%20*%20*%20*%20*%20* 2 x y",
            "BadNumber",
        ),
        (b"configure f timer %ff 2 x y", "BadText"),
        (b"arm", "BadCount"),
        (b"session 1", "BadCount"),
        (b"fetch", "BadCount"),
        (b"configure f queue orders 16 8 3 0", "BadCount"),
        (b"configure f blob 16 8 3 0 0 0", "BadCount"),
        (b"configure %ff queue orders x 8 3 0 0", "BadText"),
    ];
    expect(&rt, &cases)
}

#[test]
fn spaces_and_the_end_of_a_line(rt: HostRuntime) -> Result<(), Fail> {
    let cases: [(&[u8], &str); 11] = [
        (b"", "blank"),
        (b"\n", "blank"),
        (b"\r\n", "blank"),
        (b"   \n", "blank"),
        (b"  queue   orders  \n", "MakeQueue [orders]"),
        (b"queue orders\r\n", "MakeQueue [orders]"),
        (b"queue orders\r", "MakeQueue [orders\r]"),
        (b"queue orders\r\r\n", "MakeQueue [orders\r]"),
        (b"queue or\tders\n", "MakeQueue [or\tders]"),
        (b"queue\torders\n", "BadWord"),
        (b"\t\n", "BadWord"),
    ];
    expect(&rt, &cases)
}
