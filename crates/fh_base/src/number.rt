// Numbers as lines, queries, paths and lengths write them.
ghost use Rattle.std.specs.Prelude.{◌≡◌};
ghost use Rattle.std.specs.Char.{is_ascii_digit};
ghost use Rattle.std.specs.List.{list_all};
ghost use Rattle.fh_base.specs.Numbers.{is_number, number_of};

/// The most digits of a number: each such number is exact also in a JSON reader that knows floats alone.
const MOST_DIGITS: usize = 15;

/// The number that 1 to 15 decimal digits write, and none for any other bytes. Zeros may lead.
#[tactic(auto, unfolding(crate::specs::Numbers::number_of))]
pub fn read_number(bytes: &[u8]) -> Option<u64>
    ensures { result ≡ number_of bytes.now }
{
    if !is_number(bytes) {
        return None;
    }
    let Ok(digits) = str::from_utf8(bytes) else {
        return None;
    };
    digits.parse().ok()
}

fn is_number(bytes: &[u8]) -> bool
    ensures { result ≡ is_number bytes.now }
{
    if bytes.is_empty() || bytes.len() > MOST_DIGITS {
        return false;
    }
    has_digits_alone(bytes)
}

fn has_digits_alone(bytes: &[u8]) -> bool
    ensures { result ≡ list_all is_ascii_digit bytes.now }
{
    bytes.iter().all(|byte| byte.is_ascii_digit())
}
