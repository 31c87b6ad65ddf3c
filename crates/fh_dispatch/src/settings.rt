// Settings side by side.
ghost use Rattle.std.specs.Prelude.{◌≡◌, IfOk};
ghost use Rattle.fh_dispatch.specs.Settings.{same_settings, same_trigger};

use fh_base::NoMemory;
use fh_event::FunctionSettings;
use std::alloc::Global;

/// Whether two settings are equal.
pub(crate) fn same_settings(one: &FunctionSettings, other: &FunctionSettings) -> bool
    ensures { result ≡ same_settings one.now other.now }
{
    match one {
        FunctionSettings::Queue {
            queue,
            batch,
            threshold,
            limit,
            retry,
            singleton,
        } => match other {
            FunctionSettings::Queue {
                queue: other_queue,
                batch: other_batch,
                threshold: other_threshold,
                limit: other_limit,
                retry: other_retry,
                singleton: other_singleton,
            } => {
                queue.as_str() == other_queue.as_str()
                    && *batch == *other_batch
                    && *threshold == *other_threshold
                    && *limit == *other_limit
                    && *retry == *other_retry
                    && *singleton == *other_singleton
            }
            FunctionSettings::Blob { .. } | FunctionSettings::Timer { .. } => false,
        },
        FunctionSettings::Blob {
            batch,
            threshold,
            limit,
            retry,
            singleton,
        } => match other {
            FunctionSettings::Blob {
                batch: other_batch,
                threshold: other_threshold,
                limit: other_limit,
                retry: other_retry,
                singleton: other_singleton,
            } => {
                *batch == *other_batch
                    && *threshold == *other_threshold
                    && *limit == *other_limit
                    && *retry == *other_retry
                    && *singleton == *other_singleton
            }
            FunctionSettings::Queue { .. } | FunctionSettings::Timer { .. } => false,
        },
        FunctionSettings::Timer {
            masks,
            startup,
            monitor,
            singleton,
        } => match other {
            FunctionSettings::Timer {
                masks: other_masks,
                startup: other_startup,
                monitor: other_monitor,
                singleton: other_singleton,
            } => {
                masks.as_slice() == other_masks.as_slice()
                    && *startup == *other_startup
                    && *monitor == *other_monitor
                    && *singleton == *other_singleton
            }
            FunctionSettings::Queue { .. } | FunctionSettings::Blob { .. } => false,
        },
    }
}

/// Whether two settings have the same trigger: the same kind, with the same queue or schedule.
pub(crate) fn same_trigger(one: &FunctionSettings, other: &FunctionSettings) -> bool
    ensures { result ≡ same_trigger one.now other.now }
{
    match one {
        FunctionSettings::Queue { queue, .. } => match other {
            FunctionSettings::Queue { queue: theirs, .. } => queue.as_str() == theirs.as_str(),
            FunctionSettings::Blob { .. } | FunctionSettings::Timer { .. } => false,
        },
        FunctionSettings::Blob { .. } => match other {
            FunctionSettings::Blob { .. } => true,
            FunctionSettings::Queue { .. } | FunctionSettings::Timer { .. } => false,
        },
        FunctionSettings::Timer { masks, .. } => match other {
            FunctionSettings::Timer { masks: theirs, .. } => masks.as_slice() == theirs.as_slice(),
            FunctionSettings::Queue { .. } | FunctionSettings::Blob { .. } => false,
        },
    }
}

/// The same settings once more.
pub(crate) fn copy_settings(
    alloc: Global,
    settings: &FunctionSettings,
) -> Result<FunctionSettings, NoMemory>
    ensures { IfOk result (λ own. own ≡ settings.now) }
{
    match settings {
        FunctionSettings::Queue {
            queue,
            batch,
            threshold,
            limit,
            retry,
            singleton,
        } => Ok(FunctionSettings::Queue {
            queue: queue.copy(alloc)?,
            batch: *batch,
            threshold: *threshold,
            limit: *limit,
            retry: *retry,
            singleton: *singleton,
        }),
        FunctionSettings::Blob {
            batch,
            threshold,
            limit,
            retry,
            singleton,
        } => Ok(FunctionSettings::Blob {
            batch: *batch,
            threshold: *threshold,
            limit: *limit,
            retry: *retry,
            singleton: *singleton,
        }),
        FunctionSettings::Timer {
            masks,
            startup,
            monitor,
            singleton,
        } => Ok(FunctionSettings::Timer {
            masks: *masks,
            startup: *startup,
            monitor: *monitor,
            singleton: *singleton,
        }),
    }
}
