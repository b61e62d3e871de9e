// Words that must be 0: they are joined into one word, so that there is no branch for each of them.
//
// Nothing is asked of the words, and nothing is written. Assumes nothing.
#![tactic(auto)]

ghost use Rattle.std.specs.Prelude.{◌≡◌};
ghost use Rattle.paper.specs.Table.{zeros};
ghost use Rattle.zeros.specs.Union.{union};

// The members of all the sets, as one set.
pub fn union_of(words: &[u64]) -> u64
    ensures { result ≡ union words.now }
{
    words.iter().fold(0, |members, word| members | *word)
}

// Each number is 0.
pub fn all_zero(words: &[u64]) -> bool
    ensures { result ≡ zeros words.now }
{
    union_of(words) == 0
}
