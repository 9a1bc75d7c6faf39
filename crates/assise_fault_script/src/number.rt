//! Numbers.
ghost use Rattle.std.specs.Prelude.{◌≡◌};
ghost use Rattle.std.specs.List.{list_all};
ghost use Rattle.assise_fault_script.specs.Number.{is_digit, is_digits, limited, number_of};

use crate::fault::ScriptFault;

/// The number that a word writes.
pub fn number(word: &str) -> Result<u64, ScriptFault>
    ensures { result ≡ number_of word.now }
{
    if !all_digits(word.as_bytes()) {
        return Err(ScriptFault::BadNumber);
    }
    match word.parse::<u64>() {
        Ok(value) => Ok(value),
        Err(_) => Err(ScriptFault::BadNumber),
    }
}

fn all_digits(bytes: &[u8]) -> bool
    ensures { result ≡ is_digits bytes.now }
{
    !bytes.is_empty() && only_digits(bytes)
}

fn only_digits(bytes: &[u8]) -> bool
    ensures { result ≡ list_all is_digit bytes.now }
{
    bytes.iter().all(|b| b'0' <= *b && *b <= b'9')
}

/// The number that a word writes, if it lies between the two.
pub fn within(low: u64, high: u64, word: &str) -> Result<u64, ScriptFault>
    ensures { result ≡ limited low high word.now }
{
    let value = number(word)?;
    if value < low || value > high {
        return Err(ScriptFault::BadLimit);
    }
    Ok(value)
}
