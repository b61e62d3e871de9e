// The names of a content model, listed from its symbols. Assumes nothing.
#![tactic(auto)]

ghost use Rattle.std.specs.Prelude.{◌≡◌, ◌≤◌, length};
ghost use Rattle.std.proofs.lemmas.List.Edits.{sets};
ghost use Rattle.model_names.specs.Listed.{names_in};

// The least symbol that is a name, as a byte.
const NAMED: u8 = paper::NAMED as u8;

// The names among the symbols, in their order, go into the first words of `names`: of a model's symbols, word k is the name of
// occurrence k.
pub fn list_names(s: &[u8], names: &mut [u64])
    requires { length (names_in s.now) ≤ length names.old }
    ensures { names.new ≡ sets names.old 0 (names_in s.now) }
{
    let mut n: usize = 0;
    for symbol in s {
        if *symbol >= NAMED {
            names[n] = (*symbol - NAMED) as u64;
            n += 1;
        }
    }
}
