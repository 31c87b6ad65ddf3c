// What stands at a number.
use crate::{Ending, Message};

/// The row of that number with its place in its queue's lane, or how its message went.
#[derive(Drop)]
pub(crate) enum Slot {
    Row { row: Message, place: usize },
    Ended { ending: Ending },
}
