// Content models, read from their symbols: the sets of first and last occurrences and the follow sets.
//
// An operator stands before its parts, so an expression is read by recursion: n symbols are read at most n + 1 calls deep. A
// set is a word, bit k for occurrence k. Assumes nothing.
#![tactic(auto)]

ghost use Rattle.std.specs.Prelude.{◌≡◌, length, replicate};
ghost use Rattle.paper.specs.Basics.{most_names};
ghost use Rattle.content.specs.Parts.{Got};
ghost use Rattle.content.specs.Model.{Modelled};

use model_parts::{Part, either, in_sequence, one_name, with_none};
use paper::MOST_NAMES;
use set_walks::connect;

// The symbols that are told apart, as bytes.
const CHOICE: u8 = paper::CHOICE as u8;

const OPTIONAL: u8 = paper::OPTIONAL as u8;

const ZERO_OR_MORE: u8 = paper::ZERO_OR_MORE as u8;

const NAMED: u8 = paper::NAMED as u8;

// The expression at a place of the symbols, with its occurrences numbered from p on. Its follow sets go into the words of
// `follow`, word k for occurrence k. Both calls have fewer symbols left.
fn read(s: &[u8], at: usize, p: usize, follow: &mut [u64]) -> Option<Part>
    requires { length follow.old ≡ most_names }
    ensures { Got s.now at p follow.old follow.new result }
{
    if at >= s.len() {
        return None;
    }
    let symbol = s[at];
    if symbol >= NAMED {
        if p >= MOST_NAMES {
            return None;
        }
        return Some(one_name(at, p));
    }
    let a = read(s, at + 1, p, follow)?;
    if symbol == OPTIONAL {
        return Some(with_none(true, a));
    }
    if symbol > OPTIONAL {
        connect(follow, a.last, a.first);
        return Some(with_none(symbol == ZERO_OR_MORE, a));
    }
    let b = read(s, a.next, a.places, follow)?;
    if symbol == CHOICE {
        return Some(either(a, b));
    }
    connect(follow, a.last, b.first);
    Some(in_sequence(a, b))
}

// A model that was read: how many occurrences there are, whether no child at all matches, and the sets of first and last
// occurrences.
#[derive(Clone, Copy)]
pub struct Model {
    pub count: usize,
    pub nullable: bool,
    pub first: u64,
    pub last: u64,
}

// The model that the symbols are, if they are exactly one expression and at most 64 names occur in it. The words of `follow`,
// 64 zeros, become its follow sets; where there is no model they are zeros again.
pub fn read_model(s: &[u8], follow: &mut [u64]) -> Option<Model>
    requires { follow.old ≡ replicate most_names 0 }
    ensures { Modelled s.now follow.new result }
{
    match read(s, 0, 0, follow) {
        Some(whole) if whole.next == s.len() => Some(Model {
            count: whole.places,
            nullable: whole.nullable,
            first: whole.first,
            last: whole.last,
        }),
        _ => {
            follow.fill(0);
            None
        }
    }
}
