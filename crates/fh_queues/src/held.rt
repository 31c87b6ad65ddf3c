// Messages that are named by their newest receipt.
ghost use Rattle.std.specs.Prelude.{◌≡◌};

use std::marker::Model;

/// A message with its newest receipt, as the one who holds it knows it.
#[derive(Clone, Copy, Debug, PartialEq, Eq)]
pub struct HeldMessage {
    pub number: u64,
    pub receipt: u64,
}

/// A list of held messages. Contracts see the list.
#[derive(Debug, Drop)]
pub struct HeldMessages {
    messages: Vec<HeldMessage>,
}

impl Model for HeldMessages {
    ghost use Rattle.std.specs.Prelude.{List};
    ghost use Rattle.fh_queues.specs.declared.held.HeldMessage.{HeldMessage};

    ghost Value = { List HeldMessage };

    ghost view = { λ a. a.messages.items };
}

impl HeldMessages {
    /// Takes no memory.
    pub fn new(messages: Vec<HeldMessage>) -> HeldMessages
        ensures { result ≡ messages.items }
    {
        HeldMessages { messages }
    }

    pub fn as_slice(&self) -> &[HeldMessage]
        ensures { result.now ≡ self.now }
    {
        &self.messages
    }
}
