// The table of host.json.
ghost use Rattle.std.specs.Prelude.{◌≡◌, codes};
ghost use Rattle.serde_json.specs.View.{view};
ghost use Rattle.fh_app.specs.Answers.{Answers};
ghost use Rattle.fh_app.specs.Host.{host_of, handler_of, path_row, directory_row, arguments_row, forwarding_row, queue_settings_of, lock_seconds_of};

use crate::fault::AppFault;
use crate::rows::File;
use fh_base::{Text, Texts};
use serde_json::Value;
use std::alloc::Global;

/// How the handler's process is started.
#[derive(Debug, Drop)]
pub struct Handler {
    pub path: Text,
    pub directory: Text,
    pub arguments: Texts,
    pub forwarding: bool,
}

/// `retry` is in seconds and `polling` in milliseconds.
#[derive(Clone, Copy, Debug, PartialEq, Eq)]
pub struct QueueSettings {
    pub batch: u64,
    pub threshold: u64,
    pub limit: u64,
    pub retry: u64,
    pub polling: u64,
    pub base64: bool,
}

/// What host.json says.
#[derive(Debug, Drop)]
pub(crate) struct Host {
    pub handler: Handler,
    pub queues: QueueSettings,
    pub lock_seconds: u64,
}

const WEEK: u64 = 604_800_000;

/// Reads host.json, or tells the first row of its table that it breaks.
#[tactic(auto, unfolding(crate::specs::Host::host_of))]
pub(crate) fn read_host(alloc: Global, root: &Value) -> Result<Host, AppFault>
    ensures { Answers result (host_of (view root.now)) }
{
    let host = File {
        name: "host.json",
        root,
    };
    host.the_text(alloc, "version", "2.0")?;
    let handler = read_handler(alloc, root)?;
    let queues = read_queue_settings(alloc, root)?;
    let lock_seconds = read_lock_seconds(alloc, root)?;
    Ok(Host {
        handler,
        queues,
        lock_seconds,
    })
}

#[tactic(auto, unfolding(crate::specs::Host::handler_of))]
fn read_handler(alloc: Global, root: &Value) -> Result<Handler, AppFault>
    ensures { Answers result (handler_of (view root.now)) }
{
    let host = File {
        name: "host.json",
        root,
    };
    let path = path_of(alloc, &host)?;
    let directory = directory_of(alloc, &host)?;
    let arguments = arguments_of(alloc, &host)?;
    let forwarding = forwarding_of(alloc, &host)?;
    Ok(Handler {
        path,
        directory,
        arguments,
        forwarding,
    })
}

#[tactic(auto, unfolding(crate::specs::Host::path_row))]
fn path_of(alloc: Global, host: &File) -> Result<Text, AppFault>
    requires { host.now.name.now ≡ codes "host.json" }
    ensures { Answers result (path_row (view host.now.root.now)) }
{
    host.filled_text(alloc, "customHandler.description.defaultExecutablePath")
}

#[tactic(auto, unfolding(crate::specs::Host::directory_row))]
fn directory_of(alloc: Global, host: &File) -> Result<Text, AppFault>
    requires { host.now.name.now ≡ codes "host.json" }
    ensures { Answers result (directory_row (view host.now.root.now)) }
{
    host.text_or_empty(alloc, "customHandler.description.workingDirectory")
}

#[tactic(auto, unfolding(crate::specs::Host::arguments_row))]
fn arguments_of(alloc: Global, host: &File) -> Result<Texts, AppFault>
    requires { host.now.name.now ≡ codes "host.json" }
    ensures { Answers result (arguments_row (view host.now.root.now)) }
{
    host.texts_or_none(alloc, "customHandler.description.arguments")
}

#[tactic(auto, unfolding(crate::specs::Host::forwarding_row))]
fn forwarding_of(alloc: Global, host: &File) -> Result<bool, AppFault>
    requires { host.now.name.now ≡ codes "host.json" }
    ensures { Answers result (forwarding_row (view host.now.root.now)) }
{
    host.truth(alloc, "customHandler.enableForwardingHttpRequest", false)
}

#[tactic(auto, unfolding(crate::specs::Host::queue_settings_of))]
fn read_queue_settings(alloc: Global, root: &Value) -> Result<QueueSettings, AppFault>
    ensures { Answers result (queue_settings_of (view root.now)) }
{
    let host = File {
        name: "host.json",
        root,
    };
    let batch = host.number(alloc, "extensions.queues.batchSize", 1, 32, 16)?;
    let threshold = host.number(
        alloc,
        "extensions.queues.newBatchThreshold",
        0,
        1000,
        batch / 2,
    )?;
    let limit = host.number(alloc, "extensions.queues.maxDequeueCount", 1, 1000, 5)?;
    let retry = host.duration(alloc, "extensions.queues.visibilityTimeout", 0, WEEK, 0)?;
    let polling = host.duration(
        alloc,
        "extensions.queues.maxPollingInterval",
        0,
        u64::MAX,
        60000,
    )?;
    let base64 = host.encoding(alloc, "extensions.queues.messageEncoding")?;
    Ok(QueueSettings {
        batch,
        threshold,
        limit,
        retry: retry / 1000,
        polling,
        base64,
    })
}

#[tactic(auto, unfolding(crate::specs::Host::lock_seconds_of))]
fn read_lock_seconds(alloc: Global, root: &Value) -> Result<u64, AppFault>
    ensures { Answers result (lock_seconds_of (view root.now)) }
{
    let host = File {
        name: "host.json",
        root,
    };
    let period = host.duration(alloc, "singleton.lockPeriod", 15000, 60000, 15000)?;
    host.duration(alloc, "singleton.listenerLockPeriod", 0, u64::MAX, 0)?;
    host.duration(alloc, "singleton.lockAcquisitionTimeout", 0, u64::MAX, 0)?;
    Ok(period / 1000)
}
