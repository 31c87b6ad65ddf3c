//! The functions of an app.
ghost use Rattle.std.specs.Prelude.{◌≡◌};

use fh_base::{QueueName, Text};
use fh_exprs::{Pattern, Template};
use fh_ncrontab::Schedule;
use std::marker::Model;

/// A function of the app.
#[derive(Drop)]
pub struct Function {
    pub name: Text,
    pub disabled: bool,
    /// Whether one run at a time holds the function's lease.
    pub singleton: bool,
    pub trigger: Trigger,
    pub outputs: Outputs,
}

/// What makes a function run, with the name of its binding.
#[derive(Drop)]
pub enum Trigger {
    Queue {
        name: Text,
        queue: QueueName,
    },
    Blob {
        name: Text,
        container: QueueName,
        pattern: Pattern,
    },
    Timer {
        name: Text,
        schedule: Schedule,
        /// Whether a run is due when the host starts.
        startup: bool,
        /// Whether runs that were missed are made up for.
        monitor: bool,
    },
}

/// Where a result goes, with the name of its binding. `$return` names the function's return value.
#[derive(Drop)]
pub enum OutBinding {
    Queue { name: Text, queue: Template },
    Blob { name: Text, path: Template },
}

/// The outputs of a function in order. Contracts see the list.
#[derive(Drop)]
pub struct Outputs {
    outputs: Vec<OutBinding>,
}

impl Model for Outputs {
    ghost use Rattle.std.specs.Prelude.{List};
    ghost use Rattle.fh_app.specs.declared.function.OutBinding.{OutBinding};

    ghost Value = { List OutBinding };

    ghost view = { λ o. o.outputs.items };
}

impl Outputs {
    /// Takes no memory.
    pub fn from_vec(outputs: Vec<OutBinding>) -> Outputs
        ensures { result ≡ outputs.items }
    {
        Outputs { outputs }
    }

    pub fn as_slice(&self) -> &[OutBinding]
        ensures { result.now ≡ self.now }
    {
        self.outputs.as_slice()
    }
}

/// The functions of an app in order. Contracts see the list.
#[derive(Drop)]
pub struct Functions {
    functions: Vec<Function>,
}

impl Model for Functions {
    ghost use Rattle.std.specs.Prelude.{List};
    ghost use Rattle.fh_app.specs.declared.function.Function.{Function};

    ghost Value = { List Function };

    ghost view = { λ f. f.functions.items };
}

impl Functions {
    /// Takes no memory.
    pub fn from_vec(functions: Vec<Function>) -> Functions
        ensures { result ≡ functions.items }
    {
        Functions { functions }
    }

    pub fn as_slice(&self) -> &[Function]
        ensures { result.now ≡ self.now }
    {
        self.functions.as_slice()
    }
}

/// The trigger and the outputs of a function.
#[derive(Drop)]
pub(crate) struct Bindings {
    pub trigger: Trigger,
    pub outputs: Outputs,
}
