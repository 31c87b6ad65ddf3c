// The timers of functions.
ghost use Rattle.std.specs.Prelude.{◌≡◌};
ghost use Rattle.fh_dispatch.specs.Timers.{timer_by};

use fh_event::FunctionSettings;
use fh_ncrontab::Schedule;

/// What a function is that runs by a schedule.
#[derive(Clone, Copy, Debug, PartialEq, Eq)]
pub struct Timer {
    /// The function's number.
    pub function: u64,
    pub schedule: Schedule,
    /// It runs once when it is armed.
    pub startup: bool,
    /// A run that was missed is made up for.
    pub monitor: bool,
}

/// The timer of the function of this number, by its settings.
pub(crate) fn timer_by(number: u64, settings: &FunctionSettings) -> Option<Timer>
    ensures { result ≡ timer_by number settings.now }
{
    let FunctionSettings::Timer {
        masks,
        startup,
        monitor,
        ..
    } = settings
    else {
        return None;
    };
    let schedule = Schedule::of_masks(*masks)?;
    Some(Timer {
        function: number,
        schedule,
        startup: *startup,
        monitor: *monitor,
    })
}
