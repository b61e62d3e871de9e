// How many elements of each name start in some tokens.
//
// The counts are lent, one for each of 48 names. "Names of E and above are counted nowhere."
// Assumes nothing.
#![tactic(auto)]

ghost use Rattle.std.specs.Prelude.{◌≡◌, ◌≤◌, length, replicate};
ghost use Rattle.paper.specs.Basics.{most_tokens, most_elements};
ghost use Rattle.paper.specs.Tokens.{toks, tok_of};
ghost use Rattle.tallies.specs.Tallies.{noted, tallies, Room};

use tokens::{is_start, number};

// Counts a token that starts an element of a name below E.
fn note(into: &mut [u32], elements: u32, t: u32)
    requires { (elements ≤ most_elements) × Room into.old }
    ensures { into.new ≡ noted elements into.old (tok_of t) }
{
    if !is_start(t) {
        return;
    }
    let name = number(t);
    if name < elements {
        let at = name as usize;
        into[at] += 1;
    }
}

// Counts the tokens of a part, into counts that are 0.
pub fn tally(part: &[u32], elements: u32, into: &mut [u32])
    requires { (elements ≤ most_elements) × (length part.now ≤ most_tokens) × (into.old ≡ replicate most_elements 0) }
    ensures { into.new ≡ tallies elements (toks part.now) }
{
    for &t in part {
        note(into, elements, t);
    }
}
