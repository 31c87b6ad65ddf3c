// A queue's name, which its lane and its messages share.
ghost use Rattle.std.specs.Prelude.{◌≡◌, IfOk};

use fh_base::{NoMemory, QueueName};
use std::alloc::Global;
use std::marker::Model;
use std::sync::Arc;

/// A queue's name that all its messages share, so that none has bytes of its own for it. Contracts see
/// the list of its bytes.
#[derive(Drop)]
pub struct SharedName {
    name: Arc<QueueName>,
}

impl Model for SharedName {
    ghost use Rattle.std.specs.Prelude.{List, ℕ};
    ghost use Rattle.std.specs.Arc.{arc_value};

    ghost Value = { List ℕ };

    ghost view = { λ s. arc_value s.name };
}

impl SharedName {
    pub(crate) fn new(alloc: Global, name: QueueName) -> Result<SharedName, NoMemory>
        ensures { IfOk result (λ shared. shared ≡ name) }
    {
        let name = Arc::new(alloc, name)?;
        Ok(SharedName { name })
    }

    /// The same name once more.
    pub(crate) fn share(&self) -> Result<SharedName, NoMemory>
        ensures { IfOk result (λ shared. shared ≡ self.now) }
    {
        let name = Arc::try_clone(&self.name)?;
        Ok(SharedName { name })
    }

    pub fn name(&self) -> &QueueName
        ensures { result.now ≡ self.now }
    {
        &self.name
    }

    pub fn as_bytes(&self) -> &[u8]
        ensures { result.now ≡ self.now }
    {
        self.name().as_bytes()
    }
}
