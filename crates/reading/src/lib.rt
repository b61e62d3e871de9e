// Files of numbers, read one number after another from the front.
//
// A number is read with the place after it, or refused: it is broken, or out of its range. Assumes nothing.
#![tactic(auto)]

ghost use Rattle.std.specs.Prelude.{◌≡◌};
ghost use Rattle.reading.specs.Number.{Numbered};

use numbers::{Num, number_at};
use paper::Refusal;

// The number at a place of the file, from `low` to `high`.
pub fn number_in(file: &[u8], at: usize, low: u32, high: u32) -> Result<Num, Refusal>
    ensures { Numbered low high file.now at result }
{
    let Some(n) = number_at(file, at) else {
        return Err(Refusal::Broken);
    };
    if n.value < low || n.value > high {
        return Err(Refusal::Schema);
    }
    Ok(n)
}
