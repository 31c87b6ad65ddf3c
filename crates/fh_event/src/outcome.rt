// What an invocation came to.
ghost use Rattle.std.specs.Prelude.{◌≡◌};

use fh_base::Text;
use std::marker::Model;

/// The most items of a list in an entry.
pub const LONGEST_LIST: usize = 65_536;

/// How an invocation ended, as the function's handler told it.
#[derive(Debug, Drop)]
pub enum Outcome {
    /// It failed, for this cause.
    Failed { cause: Text },
    /// It succeeded, and these are to be stored in order.
    Done { outputs: Outputs },
}

/// What a successful invocation puts out. Names are texts here: the machine judges them.
#[derive(Debug, Drop)]
pub enum Output {
    /// A message for that queue, which is made where it is missing.
    Queue {
        queue: Text,
        text: Text,
    },
    /// A text for that blob.
    Blob {
        container: Text,
        blob: Text,
        text: Text,
    },
}

/// A list of outputs. Contracts see the list.
#[derive(Debug, Drop)]
pub struct Outputs {
    outputs: Vec<Output>,
}

impl Model for Outputs {
    ghost use Rattle.std.specs.Prelude.{List};
    ghost use Rattle.fh_event.specs.declared.outcome.Output.{Output};

    ghost Value = { List Output };

    ghost view = { λ a. a.outputs.items };
}

impl Outputs {
    /// Takes no memory.
    pub fn new(outputs: Vec<Output>) -> Outputs
        ensures { result ≡ outputs.items }
    {
        Outputs { outputs }
    }

    pub fn as_slice(&self) -> &[Output]
        ensures { result.now ≡ self.now }
    {
        &self.outputs
    }

    /// Takes no memory.
    pub fn into_vec(self) -> Vec<Output>
        ensures { result.items ≡ self }
    {
        let Outputs { outputs } = self;
        outputs
    }
}
