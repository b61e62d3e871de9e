// The test of a content model for ambiguity, on its sets and the names of its occurrences.
//
// A model is ambiguous where the first set or a follow set holds two occurrences of one name. A set is a word, bit k for occurrence k.
// Assumes nothing.
#![tactic(auto)]

ghost use Rattle.std.specs.Prelude.{◌≡◌, true, length, take};
ghost use Rattle.paper.specs.Basics.{most_names, distinct};
ghost use Rattle.paper.specs.Table.{chosen};
ghost use Rattle.sets.specs.Chosen.{small};
ghost use Rattle.ambiguity.specs.Unambiguous.{is_unambiguous, Bounded, Low, Twice, Places};

use set_walks::one_each;
use sets::{has, is_within, one, when};

// The names that stand at two or more of the first n places.
fn repeated(n: usize, names: &[u64]) -> u64
    requires { Low n names.now }
    ensures { Twice n names.now result }
{
    let mut seen: u64 = 0;
    let mut twice: u64 = 0;
    for i in 0..n {
        let name = one(names[i] as u32);
        twice |= seen & name;
        seen |= name;
    }
    twice
}

// The places, of the first n, whose name is in the set.
fn places_of(set: u64, n: usize, names: &[u64]) -> u64
    requires { Low n names.now }
    ensures { Places set n names.now result }
{
    let mut found: u64 = 0;
    for i in 0..n {
        found |= when(has(set, names[i] as u32), one(i as u32));
    }
    found
}

// No two members have one name. No two of `known` have, so a part of it needs no walk.
fn once_after(known: u64, set: u64, names: &[u64]) -> bool
    requires { (length names.now ≡ most_names) × (small (chosen set names.now) ≡ true) × (distinct (chosen known names.now) ≡ true) }
    ensures { result ≡ distinct (chosen set names.now) }
{
    if is_within(set, known) {
        return true;
    }
    one_each(set, names)
}

// Neither the first set nor any of the follow sets of the `count` occurrences holds two of one name. Where all names differ
// there is nothing to look for; else only occurrences of names that stand twice are walked over, and not where the set before
// has them all.
pub fn unambiguous(count: usize, first: u64, names: &[u64], follow: &[u64]) -> bool
    requires { Bounded count names.now follow.now }
    ensures { result ≡ is_unambiguous first (take count names.now) (take count follow.now) }
{
    let twice = repeated(count, names);
    if twice == 0 {
        return true;
    }
    let shared = places_of(twice, count, names);
    let mut known = first & shared;
    if !one_each(known, names) {
        return false;
    }
    for k in 0..count {
        let set = follow[k] & shared;
        if !once_after(known, set, names) {
            return false;
        }
        known = set;
    }
    true
}
