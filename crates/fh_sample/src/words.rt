// The words of the sample worker's command.
ghost use Rattle.std.specs.Prelude.{◌≡◌, is_some};
ghost use Rattle.fh_sample.specs.Words.{is_port, trial_at, trial_of as trial_of_lem};

use fh_base::read_number;

/// What the words ask for: so many rounds, each a connection that is accepted at this port.
#[derive(Clone, Copy, Debug, PartialEq, Eq)]
pub struct Trial {
    pub port: u16,
    pub rounds: u64,
}

/// Whether the words are `sample-worker`, a port and a number of rounds.
pub fn is_sample_worker(words: &[String]) -> bool
    ensures { result ≡ is_some (trial_of_lem words.now) }
{
    trial_of(words).is_some()
}

/// What the words ask for, where they are `sample-worker`, a port and a number of rounds.
pub fn trial_of(words: &[String]) -> Option<Trial>
    ensures { result ≡ trial_of_lem words.now }
{
    match words {
        [verb, port, rounds] if verb.as_str() == "sample-worker" => {
            let port = read_number(port.as_bytes());
            trial_at(port, read_number(rounds.as_bytes()))
        }
        _ => None,
    }
}

fn trial_at(port: Option<u64>, rounds: Option<u64>) -> Option<Trial>
    ensures { result ≡ trial_at port rounds }
{
    match (port, rounds) {
        (Some(port), Some(rounds)) if is_port(port) => Some(Trial {
            port: port as u16,
            rounds,
        }),
        _ => None,
    }
}

fn is_port(number: u64) -> bool
    ensures { result ≡ is_port number }
{
    (1024..=65519).contains(&number)
}
