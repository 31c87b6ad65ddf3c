// The names of a command.
ghost use Rattle.std.specs.Prelude.{◌≡◌, ◌&&◌, true, false, MatchOption};
ghost use Rattle.fh_base.specs.Names.{is_queue_name};
ghost use Rattle.fh_base.specs.BlobNames.{is_blob_name};
ghost use Rattle.fh_base.specs.PlainNames.{is_plain_name};
ghost use Rattle.fh_hub.specs.Names.{has_good_settings, has_good_function};

use fh_base::{PlainName, QueueName, Text, is_blob_name};
use fh_event::{Command, FunctionSettings};

/// The container of a blob, where both have good names.
pub(crate) fn blob_container(container: &Text, blob: &Text) -> Option<QueueName>
    ensures { MatchOption result ((is_queue_name container.now && is_blob_name blob.now) ≡ false)
        (λ name. ((is_queue_name container.now && is_blob_name blob.now) ≡ true) × (name ≡ container.now)) }
{
    let container = QueueName::read(container.as_str())?;
    if !is_blob_name(blob.as_str()) {
        return None;
    }
    Some(container)
}

/// A plain name.
pub(crate) fn plain<'a>(name: &'a Text) -> Option<&'a str>
    ensures { MatchOption result (is_plain_name name.entry.now ≡ false)
        (λ text. (is_plain_name name.entry.now ≡ true) × (text.now ≡ name.entry.now)) }
{
    PlainName::read(name.as_str())?;
    Some(name.as_str())
}

/// Whether the names of a command about a function are good.
pub(crate) fn has_good_function(command: &Command) -> bool
    ensures { result ≡ has_good_function command.now }
{
    match command {
        Command::Note {
            function,
            container,
            blob,
        } => is_plain(function) && blob_container(container, blob).is_some(),
        Command::Configure { function, settings } => {
            is_plain(function) && has_good_settings(settings)
        }
        Command::Unnoted {
            function,
            container,
        } => is_plain(function) && QueueName::read(container.as_str()).is_some(),
        _ => true,
    }
}

fn is_plain(name: &Text) -> bool
    ensures { result ≡ is_plain_name name.now }
{
    PlainName::read(name.as_str()).is_some()
}

fn has_good_settings(settings: &FunctionSettings) -> bool
    ensures { result ≡ has_good_settings settings.now }
{
    match settings {
        FunctionSettings::Queue { queue, .. } => QueueName::read(queue.as_str()).is_some(),
        FunctionSettings::Blob { .. } | FunctionSettings::Timer { .. } => true,
    }
}
