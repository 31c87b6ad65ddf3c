// The command of a request.
ghost use Rattle.std.specs.Prelude.{◌≡◌, Ok, Err};
ghost use Rattle.std.specs.Str.{is_utf8};
ghost use Rattle.fh_front.specs.Answers.{Answers};
ghost use Rattle.fh_front.specs.Commands.{command_of, asked_beside, asked, make_queue, put, take, clear, peek, new_text, update, delete, put_blob, get_blob, delete_blob, acquire, renew, release, locate};

use crate::fault::FrontFault;
use crate::page::Action;
use crate::paths::{
    behind_word, blob_part, message_part, name_part, path_of, query_of, text_of, text_of_part,
};
use crate::queries::{lifetime, needed, number_of_part, number_or};
use crate::routes::{Routes, action_of};
use fh_base::{Text, utf8_text};
use fh_event::Command;
use fh_wire::HttpIn;
use std::alloc::Global;

/// What a request asks for.
#[derive(Debug, Drop)]
pub enum FrontAsk {
    /// A command of the store.
    Ask(Command),
    /// That the host stops.
    Stop,
}

/// The command that a request asks for, or the first of these: no path of the table is the request's; no
/// row with the path has the method; a number is missing that has no default, or isn't 1 to 15 digits; the
/// body, or a text of the path, isn't UTF-8.
///
/// Parts of the path are decoded from percent signs, and the query is read as a form. Names of the query
/// that the row doesn't have are passed over, and of a repeated name the first counts. docs/http.md has the
/// table.
#[tactic(auto, unfolding(crate::specs::Commands::command_of))]
pub fn command_of(alloc: Global, routes: &Routes, request: &HttpIn) -> Result<FrontAsk, FrontFault>
    ensures { Answers result (command_of request.now) }
{
    let target = request.target.as_str().as_bytes();
    let page = routes.page_of(path_of(target))?;
    let row = action_of(page, request.method.as_str())?;
    asked_beside(alloc, row, target, request.body.as_slice())
}

#[tactic(auto, unfolding(crate::specs::Commands::asked_beside, crate::specs::Paths::text_of))]
fn asked_beside(
    alloc: Global,
    row: Action,
    target: &[u8],
    body: &[u8],
) -> Result<FrontAsk, FrontFault>
    ensures { Answers result (asked_beside row target.now body.now) }
{
    let ask = asked(alloc, row, path_of(target), query_of(target), body)?;
    match utf8_text(body) {
        Some(_) => Ok(ask),
        None => Err(FrontFault::BadBody),
    }
}

#[tactic(auto, unfolding(crate::specs::Commands::asked))]
fn asked(
    alloc: Global,
    row: Action,
    path: &[u8],
    query: &[u8],
    body: &[u8],
) -> Result<FrontAsk, FrontFault>
    ensures { Answers result (asked row path.now query.now body.now) }
{
    let command = match row {
        Action::MakeQueue => make_queue(alloc, path)?,
        Action::Put => put(alloc, path, query, body)?,
        Action::Take => take(alloc, path, query)?,
        Action::Clear => clear(alloc, path)?,
        Action::Peek => peek(alloc, path, query)?,
        Action::Update => update(alloc, path, query, body)?,
        Action::Delete => delete(alloc, path, query)?,
        Action::PutBlob => put_blob(alloc, path, body)?,
        Action::GetBlob => get_blob(alloc, path)?,
        Action::DeleteBlob => delete_blob(alloc, path)?,
        Action::Acquire => acquire(alloc, path, query)?,
        Action::RenewLease => renew(alloc, path, query)?,
        Action::ReleaseLease => release(alloc, path, query)?,
        Action::Locate => locate(alloc, path)?,
        Action::Stop => return Ok(FrontAsk::Stop),
    };
    Ok(FrontAsk::Ask(command))
}

#[tactic(auto, unfolding(crate::specs::Commands::make_queue))]
fn make_queue(alloc: Global, path: &[u8]) -> Result<Command, FrontFault>
    ensures { Answers result (make_queue path.now) }
{
    let queue = text_of_part(alloc, name_part(path))?;
    Ok(Command::MakeQueue { queue })
}

#[tactic(auto, unfolding(crate::specs::Commands::put))]
fn put(alloc: Global, path: &[u8], query: &[u8], body: &[u8]) -> Result<Command, FrontFault>
    ensures { Answers result (put path.now query.now body.now) }
{
    let delay = number_or(alloc, query, "delay", 0)?;
    let ttl = lifetime(alloc, query)?;
    let queue = text_of_part(alloc, name_part(path))?;
    let text = text_of(alloc, body)?;
    Ok(Command::Put {
        queue,
        delay,
        ttl,
        text,
    })
}

#[tactic(auto, unfolding(crate::specs::Commands::take))]
fn take(alloc: Global, path: &[u8], query: &[u8]) -> Result<Command, FrontFault>
    ensures { Answers result (take path.now query.now) }
{
    let count = number_or(alloc, query, "count", 1)?;
    let hold = number_or(alloc, query, "hold", 30)?;
    let queue = text_of_part(alloc, name_part(path))?;
    Ok(Command::Take { queue, count, hold })
}

#[tactic(auto, unfolding(crate::specs::Commands::clear))]
fn clear(alloc: Global, path: &[u8]) -> Result<Command, FrontFault>
    ensures { Answers result (clear path.now) }
{
    let queue = text_of_part(alloc, name_part(path))?;
    Ok(Command::Clear { queue })
}

#[tactic(auto, unfolding(crate::specs::Commands::peek))]
fn peek(alloc: Global, path: &[u8], query: &[u8]) -> Result<Command, FrontFault>
    ensures { Answers result (peek path.now query.now) }
{
    let count = number_or(alloc, query, "count", 1)?;
    let queue = text_of_part(alloc, name_part(path))?;
    Ok(Command::Peek { queue, count })
}

#[tactic(auto, unfolding(crate::specs::Commands::update))]
fn update(alloc: Global, path: &[u8], query: &[u8], body: &[u8]) -> Result<Command, FrontFault>
    ensures { Answers result (update path.now query.now body.now) }
{
    let number = number_of_part(alloc, message_part(path))?;
    let receipt = needed(alloc, query, "receipt")?;
    let hold = number_or(alloc, query, "hold", 30)?;
    let queue = text_of_part(alloc, name_part(path))?;
    let text = new_text(alloc, body)?;
    Ok(Command::Update {
        queue,
        number,
        receipt,
        hold,
        text,
    })
}

// A body that isn't empty, as a text.
#[tactic(auto, unfolding(crate::specs::Commands::new_text))]
fn new_text(alloc: Global, body: &[u8]) -> Result<Option<Text>, FrontFault>
    ensures { Answers result (new_text body.now) }
{
    if body.is_empty() {
        return Ok(None);
    }
    let text = text_of(alloc, body)?;
    Ok(Some(text))
}

#[tactic(auto, unfolding(crate::specs::Commands::delete))]
fn delete(alloc: Global, path: &[u8], query: &[u8]) -> Result<Command, FrontFault>
    ensures { Answers result (delete path.now query.now) }
{
    let number = number_of_part(alloc, message_part(path))?;
    let receipt = needed(alloc, query, "receipt")?;
    let queue = text_of_part(alloc, name_part(path))?;
    Ok(Command::Delete {
        queue,
        number,
        receipt,
    })
}

#[tactic(auto, unfolding(crate::specs::Commands::put_blob))]
fn put_blob(alloc: Global, path: &[u8], body: &[u8]) -> Result<Command, FrontFault>
    ensures { Answers result (put_blob path.now body.now) }
{
    let container = text_of_part(alloc, name_part(path))?;
    let blob = text_of_part(alloc, blob_part(path))?;
    let text = text_of(alloc, body)?;
    Ok(Command::PutBlob {
        container,
        blob,
        text,
    })
}

#[tactic(auto, unfolding(crate::specs::Commands::get_blob))]
fn get_blob(alloc: Global, path: &[u8]) -> Result<Command, FrontFault>
    ensures { Answers result (get_blob path.now) }
{
    let container = text_of_part(alloc, name_part(path))?;
    let blob = text_of_part(alloc, blob_part(path))?;
    Ok(Command::GetBlob { container, blob })
}

#[tactic(auto, unfolding(crate::specs::Commands::delete_blob))]
fn delete_blob(alloc: Global, path: &[u8]) -> Result<Command, FrontFault>
    ensures { Answers result (delete_blob path.now) }
{
    let container = text_of_part(alloc, name_part(path))?;
    let blob = text_of_part(alloc, blob_part(path))?;
    Ok(Command::DeleteBlob { container, blob })
}

#[tactic(auto, unfolding(crate::specs::Commands::acquire))]
fn acquire(alloc: Global, path: &[u8], query: &[u8]) -> Result<Command, FrontFault>
    ensures { Answers result (acquire path.now query.now) }
{
    let holder = needed(alloc, query, "holder")?;
    let seconds = needed(alloc, query, "seconds")?;
    let lease = text_of_part(alloc, name_part(path))?;
    Ok(Command::Acquire {
        lease,
        holder,
        seconds,
    })
}

#[tactic(auto, unfolding(crate::specs::Commands::renew))]
fn renew(alloc: Global, path: &[u8], query: &[u8]) -> Result<Command, FrontFault>
    ensures { Answers result (renew path.now query.now) }
{
    let holder = needed(alloc, query, "holder")?;
    let lease = text_of_part(alloc, name_part(path))?;
    Ok(Command::RenewLease { lease, holder })
}

#[tactic(auto, unfolding(crate::specs::Commands::release))]
fn release(alloc: Global, path: &[u8], query: &[u8]) -> Result<Command, FrontFault>
    ensures { Answers result (release path.now query.now) }
{
    let holder = needed(alloc, query, "holder")?;
    let lease = text_of_part(alloc, name_part(path))?;
    Ok(Command::ReleaseLease { lease, holder })
}

#[tactic(auto, unfolding(crate::specs::Commands::locate))]
fn locate(alloc: Global, path: &[u8]) -> Result<Command, FrontFault>
    ensures { Answers result (locate path.now) }
{
    let number = number_of_part(alloc, behind_word(path))?;
    Ok(Command::Locate { number })
}
