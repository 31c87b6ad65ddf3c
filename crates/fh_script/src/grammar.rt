// Reading a line.
ghost use Rattle.std.specs.Prelude.{◌≡◌, ◌≢◌, ◌<◌, [], length, slice_index_or, MatchResult};
ghost use Rattle.fh_base.specs.Answers.{Gives};
ghost use Rattle.fh_script.specs.Grammar.{line_of, line_of_words, at_line, queue_line, put_line, take_line, peek_line, update_line, delete_line, clear_line, where_line, blob_line, unblob_line, get_line, note_line, unnoted_line, acquire_line, renew_line, release_line, configure_line, function_line, queue_function_line, blob_function_line, timer_function_line, arm_line, tick_line, session_line, fetch_line};
ghost use Rattle.fh_script.specs.Words.{texts};

use crate::faults::WordFault;
use crate::forms::{flag, lifetime, masks, number, number_or, text};
use crate::lines::line_text;
use crate::words::words_of;
use fh_base::utf8_text;
use fh_event::{Command, FunctionSettings};
use std::alloc::Global;

/// What a line asks for.
#[derive(Debug, Drop)]
pub enum LineAsk {
    /// It has no words.
    Blank,
    /// `at`: the moment of the lines behind it, in milliseconds.
    At { ms: u64 },
    Ask(Command),
}

/// In seconds: a message is visible at once.
const DEFAULT_DELAY: u64 = 0;

/// One message.
const DEFAULT_COUNT: u64 = 1;

/// In seconds.
const DEFAULT_HOLD: u64 = 30;

/// Reads the bytes of a line, with or without its line feed.
#[tactic(auto, unfolding(crate::specs::Grammar::line_of))]
pub fn line_ask(alloc: Global, line: &[u8]) -> Result<LineAsk, WordFault>
    ensures { Gives WordFault.NoMemory result (line_of line.now) }
{
    let Some(text) = utf8_text(line_text(line)) else {
        return Err(WordFault::BadText);
    };
    let words = words_of(alloc, text)?;
    read_words(alloc, &words)
}

#[tactic(auto, unfolding(crate::specs::Grammar::line_of_words))]
fn read_words(alloc: Global, words: &[&str]) -> Result<LineAsk, WordFault>
    ensures { Gives WordFault.NoMemory result (line_of_words (texts words.now)) }
{
    let [verb, words @ ..] = words else {
        return Ok(LineAsk::Blank);
    };
    match *verb {
        "at" => read_at(words),
        "queue" => read_queue(alloc, words),
        "put" => read_put(alloc, words),
        "take" => read_take(alloc, words),
        "peek" => read_peek(alloc, words),
        "update" => read_update(alloc, words),
        "delete" => read_delete(alloc, words),
        "clear" => read_clear(alloc, words),
        "where" => read_where(words),
        "blob" => read_blob(alloc, words),
        "unblob" => read_unblob(alloc, words),
        "get" => read_get(alloc, words),
        "note" => read_note(alloc, words),
        "unnoted" => read_unnoted(alloc, words),
        "acquire" => read_acquire(alloc, words),
        "renew" => read_renew(alloc, words),
        "release" => read_release(alloc, words),
        "configure" => read_configure(alloc, words),
        "arm" => read_arm(alloc, words),
        "tick" => read_tick(alloc, words),
        "session" => read_session(words),
        "fetch" => read_fetch(alloc, words),
        _ => Err(WordFault::BadWord),
    }
}

#[tactic(auto, unfolding(crate::specs::Grammar::at_line))]
fn read_at(words: &[&str]) -> Result<LineAsk, WordFault>
    ensures { Gives WordFault.NoMemory result (at_line (texts words.now)) }
{
    counted(words, 1)?;
    let ms = number(word(words, 0))?;
    Ok(LineAsk::At { ms })
}

#[tactic(auto, unfolding(crate::specs::Grammar::queue_line))]
fn read_queue(alloc: Global, words: &[&str]) -> Result<LineAsk, WordFault>
    ensures { Gives WordFault.NoMemory result (queue_line (texts words.now)) }
{
    counted(words, 1)?;
    Ok(LineAsk::Ask(Command::MakeQueue {
        queue: text(alloc, word(words, 0))?,
    }))
}

#[tactic(auto, unfolding(crate::specs::Grammar::put_line))]
fn read_put(alloc: Global, words: &[&str]) -> Result<LineAsk, WordFault>
    ensures { Gives WordFault.NoMemory result (put_line (texts words.now)) }
{
    counted(words, 4)?;
    Ok(LineAsk::Ask(Command::Put {
        queue: text(alloc, word(words, 0))?,
        delay: number_or(word(words, 1), DEFAULT_DELAY)?,
        ttl: lifetime(word(words, 2))?,
        text: text(alloc, word(words, 3))?,
    }))
}

#[tactic(auto, unfolding(crate::specs::Grammar::take_line))]
fn read_take(alloc: Global, words: &[&str]) -> Result<LineAsk, WordFault>
    ensures { Gives WordFault.NoMemory result (take_line (texts words.now)) }
{
    counted(words, 3)?;
    Ok(LineAsk::Ask(Command::Take {
        queue: text(alloc, word(words, 0))?,
        count: number_or(word(words, 1), DEFAULT_COUNT)?,
        hold: number_or(word(words, 2), DEFAULT_HOLD)?,
    }))
}

#[tactic(auto, unfolding(crate::specs::Grammar::peek_line))]
fn read_peek(alloc: Global, words: &[&str]) -> Result<LineAsk, WordFault>
    ensures { Gives WordFault.NoMemory result (peek_line (texts words.now)) }
{
    counted(words, 2)?;
    Ok(LineAsk::Ask(Command::Peek {
        queue: text(alloc, word(words, 0))?,
        count: number_or(word(words, 1), DEFAULT_COUNT)?,
    }))
}

#[tactic(auto, unfolding(crate::specs::Grammar::update_line))]
fn read_update(alloc: Global, words: &[&str]) -> Result<LineAsk, WordFault>
    ensures { Gives WordFault.NoMemory result (update_line (texts words.now)) }
{
    let has_text = words.len() == 5;
    if !has_text {
        counted(words, 4)?;
    }
    Ok(LineAsk::Ask(Command::Update {
        queue: text(alloc, word(words, 0))?,
        number: number(word(words, 1))?,
        receipt: number(word(words, 2))?,
        hold: number_or(word(words, 3), DEFAULT_HOLD)?,
        text: if has_text {
            Some(text(alloc, word(words, 4))?)
        } else {
            None
        },
    }))
}

#[tactic(auto, unfolding(crate::specs::Grammar::delete_line))]
fn read_delete(alloc: Global, words: &[&str]) -> Result<LineAsk, WordFault>
    ensures { Gives WordFault.NoMemory result (delete_line (texts words.now)) }
{
    counted(words, 3)?;
    Ok(LineAsk::Ask(Command::Delete {
        queue: text(alloc, word(words, 0))?,
        number: number(word(words, 1))?,
        receipt: number(word(words, 2))?,
    }))
}

#[tactic(auto, unfolding(crate::specs::Grammar::clear_line))]
fn read_clear(alloc: Global, words: &[&str]) -> Result<LineAsk, WordFault>
    ensures { Gives WordFault.NoMemory result (clear_line (texts words.now)) }
{
    counted(words, 1)?;
    Ok(LineAsk::Ask(Command::Clear {
        queue: text(alloc, word(words, 0))?,
    }))
}

#[tactic(auto, unfolding(crate::specs::Grammar::where_line))]
fn read_where(words: &[&str]) -> Result<LineAsk, WordFault>
    ensures { Gives WordFault.NoMemory result (where_line (texts words.now)) }
{
    counted(words, 1)?;
    Ok(LineAsk::Ask(Command::Locate {
        number: number(word(words, 0))?,
    }))
}

#[tactic(auto, unfolding(crate::specs::Grammar::blob_line))]
fn read_blob(alloc: Global, words: &[&str]) -> Result<LineAsk, WordFault>
    ensures { Gives WordFault.NoMemory result (blob_line (texts words.now)) }
{
    counted(words, 3)?;
    Ok(LineAsk::Ask(Command::PutBlob {
        container: text(alloc, word(words, 0))?,
        blob: text(alloc, word(words, 1))?,
        text: text(alloc, word(words, 2))?,
    }))
}

#[tactic(auto, unfolding(crate::specs::Grammar::unblob_line))]
fn read_unblob(alloc: Global, words: &[&str]) -> Result<LineAsk, WordFault>
    ensures { Gives WordFault.NoMemory result (unblob_line (texts words.now)) }
{
    counted(words, 2)?;
    Ok(LineAsk::Ask(Command::DeleteBlob {
        container: text(alloc, word(words, 0))?,
        blob: text(alloc, word(words, 1))?,
    }))
}

#[tactic(auto, unfolding(crate::specs::Grammar::get_line))]
fn read_get(alloc: Global, words: &[&str]) -> Result<LineAsk, WordFault>
    ensures { Gives WordFault.NoMemory result (get_line (texts words.now)) }
{
    counted(words, 2)?;
    Ok(LineAsk::Ask(Command::GetBlob {
        container: text(alloc, word(words, 0))?,
        blob: text(alloc, word(words, 1))?,
    }))
}

#[tactic(auto, unfolding(crate::specs::Grammar::note_line))]
fn read_note(alloc: Global, words: &[&str]) -> Result<LineAsk, WordFault>
    ensures { Gives WordFault.NoMemory result (note_line (texts words.now)) }
{
    counted(words, 3)?;
    Ok(LineAsk::Ask(Command::Note {
        function: text(alloc, word(words, 0))?,
        container: text(alloc, word(words, 1))?,
        blob: text(alloc, word(words, 2))?,
    }))
}

#[tactic(auto, unfolding(crate::specs::Grammar::unnoted_line))]
fn read_unnoted(alloc: Global, words: &[&str]) -> Result<LineAsk, WordFault>
    ensures { Gives WordFault.NoMemory result (unnoted_line (texts words.now)) }
{
    counted(words, 2)?;
    Ok(LineAsk::Ask(Command::Unnoted {
        function: text(alloc, word(words, 0))?,
        container: text(alloc, word(words, 1))?,
    }))
}

#[tactic(auto, unfolding(crate::specs::Grammar::acquire_line))]
fn read_acquire(alloc: Global, words: &[&str]) -> Result<LineAsk, WordFault>
    ensures { Gives WordFault.NoMemory result (acquire_line (texts words.now)) }
{
    counted(words, 3)?;
    Ok(LineAsk::Ask(Command::Acquire {
        lease: text(alloc, word(words, 0))?,
        holder: number(word(words, 1))?,
        seconds: number(word(words, 2))?,
    }))
}

#[tactic(auto, unfolding(crate::specs::Grammar::renew_line))]
fn read_renew(alloc: Global, words: &[&str]) -> Result<LineAsk, WordFault>
    ensures { Gives WordFault.NoMemory result (renew_line (texts words.now)) }
{
    counted(words, 2)?;
    Ok(LineAsk::Ask(Command::RenewLease {
        lease: text(alloc, word(words, 0))?,
        holder: number(word(words, 1))?,
    }))
}

#[tactic(auto, unfolding(crate::specs::Grammar::release_line))]
fn read_release(alloc: Global, words: &[&str]) -> Result<LineAsk, WordFault>
    ensures { Gives WordFault.NoMemory result (release_line (texts words.now)) }
{
    counted(words, 2)?;
    Ok(LineAsk::Ask(Command::ReleaseLease {
        lease: text(alloc, word(words, 0))?,
        holder: number(word(words, 1))?,
    }))
}

#[tactic(auto, unfolding(crate::specs::Grammar::configure_line))]
fn read_configure(alloc: Global, words: &[&str]) -> Result<LineAsk, WordFault>
    ensures { Gives WordFault.NoMemory result (configure_line (texts words.now)) }
{
    if words.len() < 2 {
        return Err(WordFault::BadCount);
    }
    read_function(alloc, word(words, 1), words)
}

// The word behind the function says of which form its settings are.
#[tactic(auto, unfolding(crate::specs::Grammar::function_line))]
fn read_function(alloc: Global, form: &str, words: &[&str]) -> Result<LineAsk, WordFault>
    ensures { Gives WordFault.NoMemory result (function_line form.now (texts words.now)) }
{
    match form {
        "queue" => read_queue_function(alloc, words),
        "blob" => read_blob_function(alloc, words),
        "timer" => read_timer_function(alloc, words),
        _ => Err(WordFault::BadWord),
    }
}

#[tactic(auto, unfolding(crate::specs::Grammar::queue_function_line))]
fn read_queue_function(alloc: Global, words: &[&str]) -> Result<LineAsk, WordFault>
    ensures { Gives WordFault.NoMemory result (queue_function_line (texts words.now)) }
{
    counted(words, 8)?;
    Ok(LineAsk::Ask(Command::Configure {
        function: text(alloc, word(words, 0))?,
        settings: FunctionSettings::Queue {
            queue: text(alloc, word(words, 2))?,
            batch: number(word(words, 3))?,
            threshold: number(word(words, 4))?,
            limit: number(word(words, 5))?,
            retry: number(word(words, 6))?,
            singleton: number(word(words, 7))?,
        },
    }))
}

#[tactic(auto, unfolding(crate::specs::Grammar::blob_function_line))]
fn read_blob_function(alloc: Global, words: &[&str]) -> Result<LineAsk, WordFault>
    ensures { Gives WordFault.NoMemory result (blob_function_line (texts words.now)) }
{
    counted(words, 7)?;
    Ok(LineAsk::Ask(Command::Configure {
        function: text(alloc, word(words, 0))?,
        settings: FunctionSettings::Blob {
            batch: number(word(words, 2))?,
            threshold: number(word(words, 3))?,
            limit: number(word(words, 4))?,
            retry: number(word(words, 5))?,
            singleton: number(word(words, 6))?,
        },
    }))
}

#[tactic(auto, unfolding(crate::specs::Grammar::timer_function_line))]
fn read_timer_function(alloc: Global, words: &[&str]) -> Result<LineAsk, WordFault>
    ensures { Gives WordFault.NoMemory result (timer_function_line (texts words.now)) }
{
    counted(words, 6)?;
    Ok(LineAsk::Ask(Command::Configure {
        function: text(alloc, word(words, 0))?,
        settings: FunctionSettings::Timer {
            masks: masks(alloc, word(words, 2))?,
            startup: flag(word(words, 3))?,
            monitor: flag(word(words, 4))?,
            singleton: number(word(words, 5))?,
        },
    }))
}

#[tactic(auto, unfolding(crate::specs::Grammar::arm_line))]
fn read_arm(alloc: Global, words: &[&str]) -> Result<LineAsk, WordFault>
    ensures { Gives WordFault.NoMemory result (arm_line (texts words.now)) }
{
    counted(words, 1)?;
    Ok(LineAsk::Ask(Command::Arm {
        function: text(alloc, word(words, 0))?,
    }))
}

#[tactic(auto, unfolding(crate::specs::Grammar::tick_line))]
fn read_tick(alloc: Global, words: &[&str]) -> Result<LineAsk, WordFault>
    ensures { Gives WordFault.NoMemory result (tick_line (texts words.now)) }
{
    counted(words, 1)?;
    Ok(LineAsk::Ask(Command::Tick {
        function: text(alloc, word(words, 0))?,
    }))
}

#[tactic(auto, unfolding(crate::specs::Grammar::session_line))]
fn read_session(words: &[&str]) -> Result<LineAsk, WordFault>
    ensures { Gives WordFault.NoMemory result (session_line (texts words.now)) }
{
    counted(words, 0)?;
    Ok(LineAsk::Ask(Command::Session))
}

#[tactic(auto, unfolding(crate::specs::Grammar::fetch_line))]
fn read_fetch(alloc: Global, words: &[&str]) -> Result<LineAsk, WordFault>
    ensures { Gives WordFault.NoMemory result (fetch_line (texts words.now)) }
{
    counted(words, 1)?;
    Ok(LineAsk::Ask(Command::Fetch {
        function: text(alloc, word(words, 0))?,
    }))
}

// Whether there are so many words.
fn counted(words: &[&str], count: usize) -> Result<(), WordFault>
    ensures { MatchResult result (λ _. length words.now ≡ count)
        (λ fault. (length words.now ≢ count) × (fault ≡ WordFault.BadCount)) }
{
    if words.len() != count {
        return Err(WordFault::BadCount);
    }
    Ok(())
}

fn word<'a>(words: &[&'a str], place: usize) -> &'a str
    requires { place < length words.now }
    ensures { result.now ≡ slice_index_or (texts words.now) place [] }
{
    words[place]
}
