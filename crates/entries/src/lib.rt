// The entries of fixed attributes at the end of a table that is being made: "a count and 16 entries of element, attribute and value".
//
// They are kept in a slice of their own, with zeros behind the last one. Assumes nothing.
#![tactic(auto)]

ghost use Rattle.std.specs.Prelude.{◌≡◌, [], ◌∷◌, ◌++◌, ◌<◌, length, get_or};
ghost use Rattle.paper.specs.Basics.{most_fixed};
ghost use Rattle.paper.specs.Table.{entries, fixed_numbers};
ghost use Rattle.entries.specs.Held.{Held, entry_of};

use paper::ENTRY_WORDS;

// How many there are.
pub fn count_of(fixed: &[u64]) -> u32
    requires { Held fixed.now }
    ensures { result ≡ length (entries fixed.now) }
{
    fixed[0] as u32
}

// One more, behind the others.
pub fn add_entry(fixed: &mut [u64], element: u32, attribute: u32, value: u32)
    requires { (Held fixed.old) × (get_or fixed.old 0 0 < most_fixed) }
    ensures { fixed.new ≡ fixed_numbers (entries fixed.old ++ entry_of element attribute value ∷ []) }
{
    let n = fixed[0] as usize;
    let at = 1 + n * ENTRY_WORDS;
    fixed[at] = element as u64;
    fixed[at + 1] = attribute as u64;
    fixed[at + 2] = value as u64;
    fixed[0] = n as u64 + 1;
}
