// The name of the queue to which messages are moved that failed too often.
ghost use Rattle.std.specs.Prelude.{◌≡◌, ◌+◌, ◌≤◌, ◌++◌, length, take, drop};
ghost use Rattle.fh_base.specs.Poison.{poison_name};

use crate::queue_name::QueueName;

const ENDING: &[u8; 7] = b"-poison";

const MOST: usize = 56;

/// The queue's poison queue: its name with `-poison` behind it. There is none for a name that ends so, or
/// has more than 56 characters. Takes no memory.
pub fn poison_of(name: &QueueName) -> Option<QueueName>
    ensures { result ≡ poison_name name.now }
{
    let name = name.as_bytes();
    if name.len() > MOST || name.ends_with(ENDING) {
        return None;
    }
    let mut text = [0; 63];
    let end = name.len() + ENDING.len();
    put_at(&mut text, 0, name);
    put_at(&mut text, name.len(), ENDING);
    QueueName::of_bytes(&text[..end])
}

fn put_at(text: &mut [u8], at: usize, piece: &[u8])
    requires { at + length piece.now ≤ length text.old }
    ensures { text.new ≡ take at text.old ++ (piece.now ++ drop (at + length piece.now) text.old) }
{
    text[at..at + piece.len()].copy_from_slice(piece);
}
