//! For how long a gateway may be slow.
ghost use Rattle.std.specs.Prelude.{◌≡◌, ◌≤◌, ℕ, option_map, IfOk, IfErr, MatchOption, Some};
ghost use Rattle.octets.specs.Decimal.{number_to};
ghost use Rattle.client_tasks.specs.Patience.{IsPatience};

use crate::fault::TaskFault;
use client_options::Options;
use octets::read_number;

/// For how many seconds where none are given.
const DEFAULT: u64 = 120;

/// For how many it may be: an hour.
const MOST: u64 = 3_600;

/// For how many seconds a gateway may say nothing, or hardly anything: as many as `--patience` says, from 1 to 3,600, or else
/// 120. `BadPatience` where the word is no such number.
pub fn patience_of(options: &Options<'_>) -> Result<u64, TaskFault>
    ensures given { IfOk result (IsPatience (option_map (λ s. s.now) options.now.patience)) }
    ensures refused { IfErr result (λ fault. (fault ≡ TaskFault.BadPatience)
        × ((seconds : ℕ) → ¬ (IsPatience (option_map (λ s. s.now) options.now.patience) seconds))) }
{
    let Some(text) = options.patience else {
        return Ok(DEFAULT);
    };
    match read_seconds(text) {
        Some(seconds) => Ok(seconds),
        None => Err(TaskFault::BadPatience),
    }
}

/// The number that a word says, from 1 to 3,600.
fn read_seconds(text: &str) -> Option<u64>
    ensures { MatchOption result
        ((seconds : ℕ) → 1 ≤ seconds → ¬ (number_to 3600 text.now ≡ Some seconds))
        (λ seconds. (1 ≤ seconds) × (number_to 3600 text.now ≡ Some seconds)) }
{
    let seconds = read_number(text.as_bytes(), MOST)?;
    if seconds == 0 { None } else { Some(seconds) }
}
