// What a done edit writes into its buffer: the new tokens, and 0 up to the old length; and the change in length.
//
// Assumes nothing.
#![tactic(auto)]

ghost use Rattle.std.specs.Prelude.{◌≡◌, ◌≤◌, length, take, pos, ◌-ℤ◌};
ghost use Rattle.paper.specs.Basics.{most_tokens};
ghost use Rattle.paper.specs.Edits.{written};
ghost use Rattle.written.specs.Written.{cleared};

use copying::copy;

// Writes 0 from a place up to another.
fn clear(doc: &mut [u32], from: usize, to: usize)
    requires { to ≤ length doc.old }
    ensures { doc.new ≡ cleared doc.old from to }
{
    if from < to {
        doc[from..to].fill(0);
    }
}

// The difference of two lengths, negative when tokens went.
pub fn change_of(old: usize, new: usize) -> i32
    requires { (old ≤ most_tokens) × (new ≤ most_tokens) }
    ensures { result ≡ pos new -ℤ pos old }
{
    (new as i32) - (old as i32)
}

// "Done: places from the new length to the old hold 0, later ones are untouched": writes the tokens of new. Those before `at` stand in the
// document already.
pub fn write(doc: &mut [u32], used: usize, new: &[u32], at: usize)
    requires { (at ≤ length new.now) × (length new.now ≤ length doc.old) × (used ≤ length doc.old) × (take at new.now ≡ take at doc.old) }
    ensures { doc.new ≡ written doc.old used new.now }
{
    copy(doc, at, new, at, new.len() - at);
    clear(doc, new.len(), used);
}
