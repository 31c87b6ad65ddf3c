// The lines that a script prints for replies and rules.
ghost use Rattle.std.specs.Prelude.{◌≡◌, ◌++◌, length, IfOk, OnOk};
ghost use Rattle.std.specs.List.{flat_map};
ghost use Rattle.std.specs.String.{string_bytes};
ghost use Rattle.fh_event.specs.Lines.{escaped, spaced, spaced_time, rule_values, rule_line, taken_item, peeked_item, fetched_item, renewed_item, broken_rule, job_numbers, listed_name, place_line, reply_line, answer_line};

use crate::begun::BegunJob;
use crate::reply::{FetchedJob, Item, Place, RenewalPart, Reply};
use fh_base::{NoMemory, Rule, Text};
use percent_encoding::{AsciiSet, CONTROLS, ascii_set, percent_encode};
use std::alloc::Global;

const ESCAPED: AsciiSet = ascii_set!(CONTROLS.add(b' ').add(b'%'));

/// So many bytes most lines have at most.
const MOST_LINES: usize = 64;

/// The line for an answer, without a line feed. Texts are escaped by percent signs where they have a
/// control character, a space, a percent sign or a byte outside ASCII; the empty text is printed `%`.
pub fn answer_text(alloc: Global, answer: Result<&Reply, &Rule>) -> Result<String, NoMemory>
    ensures { IfOk result (λ line. string_bytes line ≡ answer_line answer.entry) }
{
    let mut line = String::with_capacity(alloc, MOST_LINES)?;
    match answer {
        Ok(reply) => push_reply(&mut line, reply)?,
        Err(rule) => push_rule(&mut line, rule)?,
    }
    Ok(line)
}

#[tactic(auto, using(crate::proofs::Joining::joining))]
fn push_rule(line: &mut String, rule: &Rule) -> Result<(), NoMemory>
    ensures { OnOk result (string_bytes line.new ≡ string_bytes line.old ++ rule_line rule.now) }
{
    let number = rule.number();
    let name = rule.name();
    write!(line, "no {number} {name}")?;
    push_rule_values(line, rule)
}

#[tactic(auto, using(crate::proofs::Joining::joining))]
fn push_rule_values(line: &mut String, rule: &Rule) -> Result<(), NoMemory>
    ensures { OnOk result (string_bytes line.new ≡ string_bytes line.old ++ rule_values rule.now) }
{
    match rule {
        Rule::TooLarge { size, limit } => write!(line, " {size} {limit}")?,
        Rule::OutOfRange { given, low, high } => write!(line, " {given} {low} {high}")?,
        Rule::PopReceiptMismatch { current } => write!(line, " {current}")?,
        Rule::LeaseHeld { holder, until } => write!(line, " {holder} {until}")?,
        Rule::LeaseMismatch { holder } => write!(line, " {holder}")?,
        Rule::StoreFull { live } => write!(line, " {live}")?,
        Rule::JournalFull { length } => write!(line, " {length}")?,
        Rule::OldJournal { version } => write!(line, " {version}")?,
        Rule::TokensFull { kept } => write!(line, " {kept}")?,
        Rule::MomentTooLate
        | Rule::BadName
        | Rule::NoSuchFunction
        | Rule::QueueNotFound
        | Rule::BlobNotFound
        | Rule::MessageNotFound
        | Rule::NoSuchInvocation
        | Rule::BadZone => {}
    }
    Ok(())
}

#[tactic(auto, using(crate::proofs::Joining::joining))]
fn push_reply(line: &mut String, reply: &Reply) -> Result<(), NoMemory>
    ensures { OnOk result (string_bytes line.new ≡ string_bytes line.old ++ reply_line reply.now) }
{
    match reply {
        Reply::Made | Reply::Deleted | Reply::BlobDeleted | Reply::Released => line.push_str("ok")?,
        Reply::There => line.push_str("quiet there")?,
        Reply::Stored { number, receipt } => write!(line, "ok {number} {receipt}")?,
        Reply::Taken { items } => {
            let items = items.as_slice();
            let count = items.len();
            write!(line, "ok {count}")?;
            push_taken(line, items)?;
        }
        Reply::Empty => line.push_str("quiet empty")?,
        Reply::Updated { receipt } => write!(line, "ok {receipt}")?,
        Reply::Cleared { count } => write!(line, "ok {count}")?,
        Reply::Peeked { items } => {
            let items = items.as_slice();
            let count = items.len();
            write!(line, "is {count}")?;
            push_peeked(line, items)?;
        }
        Reply::BlobStored { version } => write!(line, "ok {version}")?,
        Reply::Noted { number } => write!(line, "ok {number}")?,
        Reply::NotedBefore => line.push_str("quiet noted")?,
        Reply::Acquired { until } => write!(line, "ok {until}")?,
        Reply::Renewed { until } => write!(line, "ok {until}")?,
        Reply::Configured { number } => write!(line, "ok {number}")?,
        Reply::Same => line.push_str("quiet same")?,
        Reply::Armed { next } => {
            line.push_str("ok armed")?;
            push_time(line, *next)?;
        }
        Reply::PastDue { due, next } => {
            write!(line, "ok pastdue {due}")?;
            push_time(line, *next)?;
        }
        Reply::Ticked { due, next } => {
            write!(line, "ok ticked {due}")?;
            push_time(line, *next)?;
        }
        Reply::Running => line.push_str("quiet running")?,
        Reply::Unarmed => line.push_str("quiet unarmed")?,
        Reply::NotDue => line.push_str("quiet notdue")?,
        Reply::SessionBegun { session } => write!(line, "ok {session}")?,
        Reply::Fetched { jobs } => {
            let jobs = jobs.as_slice();
            let count = jobs.len();
            write!(line, "ok {count}")?;
            push_fetched(line, jobs)?;
        }
        Reply::Busy { in_work } => write!(line, "quiet busy {in_work}")?,
        Reply::NoJob => line.push_str("quiet idle")?,
        Reply::JobDropped { number } => write!(line, "ok dropped {number}")?,
        Reply::JobPoisoned { copy, broken } => push_ended(line, "ok poisoned", *copy, *broken)?,
        Reply::Blocked { holder, until } => {
            line.push_str("quiet blocked")?;
            write!(line, " {holder} {until}")?;
        }
        Reply::Begun { begun } => {
            let invocation = begun.invocation;
            write!(line, "ok begun {invocation}")?;
            push_job(line, &begun.job)?;
        }
        Reply::JobLost => line.push_str("ok lost")?,
        Reply::JobDone => line.push_str("ok done")?,
        Reply::JobFailed { broken } => {
            line.push_str("ok failed")?;
            push_broken(line, *broken)?;
        }
        Reply::JobReleased { visible_at, broken } => {
            push_ended(line, "ok released", *visible_at, *broken)?;
        }
        Reply::HoldsRenewed { parts } => {
            let parts = parts.as_slice();
            let count = parts.len();
            write!(line, "ok {count}")?;
            push_renewed(line, parts)?;
        }
        Reply::NothingDue => line.push_str("quiet none")?,
        Reply::Got { version, text } => {
            write!(line, "is {version} ")?;
            push_escaped(line, text.as_str().as_bytes())?;
        }
        Reply::Located { place } => push_place(line, place)?,
        Reply::Unnoted { blobs } => {
            let blobs = blobs.as_slice();
            let count = blobs.len();
            write!(line, "is {count}")?;
            push_names(line, blobs)?;
        }
    }
    Ok(())
}

#[tactic(auto, using(crate::proofs::Joining::joining))]
fn push_time(line: &mut String, time: Option<u64>) -> Result<(), NoMemory>
    ensures { OnOk result (string_bytes line.new ≡ string_bytes line.old ++ spaced_time time) }
{
    match time {
        None => line.push_str(" -")?,
        Some(time) => write!(line, " {time}")?,
    }
    Ok(())
}

#[tactic(auto, using(crate::proofs::Joining::joining))]
fn push_ended(
    line: &mut String,
    ended: &str,
    number: u64,
    broken: Option<u64>,
) -> Result<(), NoMemory>
    ensures { OnOk result
        (string_bytes line.new ≡ string_bytes line.old ++ (ended.now ++ spaced number ++ broken_rule broken)) }
{
    line.push_str(ended)?;
    write!(line, " {number}")?;
    push_broken(line, broken)
}

#[tactic(auto, using(crate::proofs::Joining::joining))]
fn push_broken(line: &mut String, broken: Option<u64>) -> Result<(), NoMemory>
    ensures { OnOk result (string_bytes line.new ≡ string_bytes line.old ++ broken_rule broken) }
{
    if let Some(rule) = broken {
        write!(line, " rule {rule}")?;
    }
    Ok(())
}

#[tactic(auto, using(crate::proofs::Joining::joining))]
fn push_job(line: &mut String, job: &BegunJob) -> Result<(), NoMemory>
    ensures { OnOk result (string_bytes line.new ≡ string_bytes line.old ++ job_numbers job.now) }
{
    match job {
        BegunJob::Timer { .. } => line.push_str(" 0 0")?,
        BegunJob::Message { number, count, .. } => write!(line, " {number} {count}")?,
    }
    Ok(())
}

fn push_fetched(line: &mut String, jobs: &[FetchedJob]) -> Result<(), NoMemory>
    ensures { OnOk result (string_bytes line.new ≡ string_bytes line.old ++ flat_map fetched_item jobs.now) }
{
    for job in jobs {
        push_fetched_item(line, job)?;
    }
    Ok(())
}

#[tactic(auto, using(crate::proofs::Joining::joining))]
fn push_fetched_item(line: &mut String, job: &FetchedJob) -> Result<(), NoMemory>
    ensures { OnOk result (string_bytes line.new ≡ string_bytes line.old ++ fetched_item job.now) }
{
    let number = job.number;
    let receipt = job.receipt;
    let count = job.count;
    write!(line, " {number}:{receipt}:{count}")?;
    Ok(())
}

fn push_renewed(line: &mut String, parts: &[RenewalPart]) -> Result<(), NoMemory>
    ensures { OnOk result (string_bytes line.new ≡ string_bytes line.old ++ flat_map renewed_item parts.now) }
{
    for part in parts {
        push_renewed_item(line, part)?;
    }
    Ok(())
}

#[tactic(auto, using(crate::proofs::Joining::joining))]
fn push_renewed_item(line: &mut String, part: &RenewalPart) -> Result<(), NoMemory>
    ensures { OnOk result (string_bytes line.new ≡ string_bytes line.old ++ renewed_item part.now) }
{
    match part {
        RenewalPart::Message {
            invocation,
            receipt,
            until,
        } => write!(line, " m{invocation}:{receipt}:{until}")?,
        RenewalPart::Lease { invocation, until } => write!(line, " l{invocation}:{until}")?,
    }
    Ok(())
}

fn push_names(line: &mut String, names: &[Text]) -> Result<(), NoMemory>
    ensures { OnOk result (string_bytes line.new ≡ string_bytes line.old ++ flat_map listed_name names.now) }
{
    for name in names {
        push_name(line, name)?;
    }
    Ok(())
}

#[tactic(auto, using(crate::proofs::Joining::joining))]
fn push_name(line: &mut String, name: &Text) -> Result<(), NoMemory>
    ensures { OnOk result (string_bytes line.new ≡ string_bytes line.old ++ listed_name name.now) }
{
    line.push_str(" ")?;
    push_escaped(line, name.as_str().as_bytes())
}

#[tactic(auto, using(crate::proofs::Joining::joining))]
fn push_place(line: &mut String, place: &Place) -> Result<(), NoMemory>
    ensures { OnOk result (string_bytes line.new ≡ string_bytes line.old ++ place_line place.now) }
{
    match place {
        Place::Waiting { queue } => {
            line.push_str("is waiting ")?;
            push_escaped(line, queue.as_bytes())?;
        }
        Place::Held { queue, until } => {
            line.push_str("is held ")?;
            push_escaped(line, queue.as_bytes())?;
            write!(line, " {until}")?;
        }
        Place::Deleted => line.push_str("is deleted")?,
        Place::Completed { invocation } => write!(line, "is completed {invocation}")?,
        Place::Moved { copy } => write!(line, "is moved {copy}")?,
        Place::Expired => line.push_str("is expired")?,
        Place::Unknown => line.push_str("is unknown")?,
    }
    Ok(())
}

fn push_taken(line: &mut String, items: &[Item]) -> Result<(), NoMemory>
    ensures { OnOk result (string_bytes line.new ≡ string_bytes line.old ++ flat_map taken_item items.now) }
{
    for item in items {
        push_taken_item(line, item)?;
    }
    Ok(())
}

#[tactic(auto, using(crate::proofs::Joining::joining))]
fn push_taken_item(line: &mut String, item: &Item) -> Result<(), NoMemory>
    ensures { OnOk result (string_bytes line.new ≡ string_bytes line.old ++ taken_item item.now) }
{
    let number = item.number;
    let receipt = item.receipt;
    let count = item.count;
    write!(line, " {number}:{receipt}:{count}:")?;
    push_escaped(line, item.text.as_str().as_bytes())
}

fn push_peeked(line: &mut String, items: &[Item]) -> Result<(), NoMemory>
    ensures { OnOk result (string_bytes line.new ≡ string_bytes line.old ++ flat_map peeked_item items.now) }
{
    for item in items {
        push_peeked_item(line, item)?;
    }
    Ok(())
}

#[tactic(auto, using(crate::proofs::Joining::joining))]
fn push_peeked_item(line: &mut String, item: &Item) -> Result<(), NoMemory>
    ensures { OnOk result (string_bytes line.new ≡ string_bytes line.old ++ peeked_item item.now) }
{
    let number = item.number;
    let count = item.count;
    write!(line, " {number}:{count}:")?;
    push_escaped(line, item.text.as_str().as_bytes())
}

#[tactic(auto, using(crate::proofs::Escaping::escapes), unfolding(crate::specs::Lines::escaped))]
fn push_escaped(line: &mut String, text: &[u8]) -> Result<(), NoMemory>
    ensures { OnOk result (string_bytes line.new ≡ string_bytes line.old ++ escaped text.now) }
{
    if text.is_empty() {
        line.push_str("%")?;
        return Ok(());
    }
    percent_encode(text, ESCAPED).append_to(line)?;
    Ok(())
}
