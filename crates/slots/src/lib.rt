// The attributes of an element, as they stand from a place on: how many values there are, the slot of an attribute, and the tokens that
// it has.
//
// Every call holds of any tokens, with shape or without.
// Assumes nothing.
#![tactic(auto)]

ghost use Rattle.std.specs.Prelude.{◌≡◌};
ghost use Rattle.paper.specs.Tokens.{tok_of, toks, values, slot, held};
ghost use Rattle.slots.specs.Counts.{passes};

use tokens::{is_attribute, is_value, number};

// How many values begin the tokens.
pub fn values(rest: &[u32]) -> usize
    ensures { result ≡ values (toks rest.now) }
{
    rest.iter().take_while(|t| is_value(**t)).count()
}

// Whether the attribute a stands behind a token of the attributes.
fn passes(a: u32, t: u32) -> bool
    ensures { result ≡ passes a (tok_of t) }
{
    is_value(t) | (is_attribute(t) & (number(t) < a))
}

// How many tokens of the attributes that begin the tokens come before the attribute a, or before where it would stand.
pub fn slot(rest: &[u32], a: u32) -> usize
    ensures { result ≡ slot a (toks rest.now) }
{
    rest.iter().take_while(|t| passes(a, **t)).count()
}

// How many tokens the attribute a has, if it begins the tokens.
pub fn held(rest: &[u32], a: u32) -> usize
    ensures { result ≡ held a (toks rest.now) }
{
    match rest {
        [t, behind @ ..] if is_attribute(*t) & (number(*t) == a) => values(behind) + 1,
        _ => 0,
    }
}
