// The frames of a journal, as a reader of it gets them.
ghost use Rattle.std.specs.Prelude.{◌≡◌};

use fh_base::Bytes;
use std::marker::Model;

/// One open frame, with the place of its gate in bytes.
#[derive(Drop)]
pub struct Frame {
    pub at: u64,
    pub payload: Bytes,
}

/// The frames of a journal in order. Contracts see their list.
#[derive(Drop)]
pub struct Frames {
    frames: Vec<Frame>,
}

impl Model for Frames {
    ghost use Rattle.std.specs.Prelude.{List};
    ghost use Rattle.fh_journal.specs.declared.frames.Frame.{Frame};

    ghost Value = { List Frame };

    ghost view = { λ a. a.frames.items };
}

impl Frames {
    pub fn new(frames: Vec<Frame>) -> Frames
        ensures { result ≡ frames.items }
    {
        Frames { frames }
    }

    pub fn as_slice(&self) -> &[Frame]
        ensures { result.now ≡ self.now }
    {
        &self.frames
    }

    /// Takes no memory.
    pub fn into_vec(self) -> Vec<Frame>
        ensures { result.items ≡ self }
    {
        self.frames
    }
}
