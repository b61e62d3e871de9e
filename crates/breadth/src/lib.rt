// A breadth-first search through the pairs of a run of the old content and a run of the new one, for a sequence that is lost.
//
// Each pair is met once, by the lowest of the shortest sequences that lead to it, since names are tried rising. The first pair at which
// the old content may end and the new one may not gives the answer. Nothing but the sequence buffer is written, and that only then.
// Assumes nothing.
#![tactic(auto)]

ghost use Rattle.std.specs.Prelude.{◌≡◌, ◌+◌, ◌≤◌, length, get_or};
ghost use Rattle.paper.specs.Basics.{sequence_places};
ghost use Rattle.paper.specs.Inclusion.{answered};
ghost use Rattle.inclusion_laws.specs.Search.{searched};
ghost use Rattle.inclusion_laws.specs.Pairs.{pairs};
ghost use Rattle.trail.specs.Entries.{mets, froms, names};
ghost use Rattle.breadth.specs.Going.{Blocks, Going, Trying};
ghost use Rattle.breadth.specs.Outcome.{found_of};

use pairs::{BEGIN, is_losing, leads};
use paper::SEQUENCE_PLACES;
use trail::{Entry, spell};

// Every name is tried from the entry at `head`, rising; the answer is where the entries end then.
fn expand(
    old: &[u64],
    new: &[u64],
    elements: u32,
    seen: &mut [u8],
    entries: &mut [Entry],
    head: usize,
    tail: usize,
) -> usize
    requires { Trying old.now new.now elements seen.old (mets entries.old) (froms entries.old) (names entries.old) head tail (get_or (mets entries.old) head 0) 0 }
    ensures { Going old.now new.now elements seen.new (mets entries.new) (froms entries.new) (names entries.new) (head + 1) result }
{
    let pair = entries[head].met;
    let mut end = tail;
    for child in 0..elements {
        if let Some(met) = leads(old, new, pair, child) {
            if seen[met as usize] == 0 {
                seen[met as usize] = 1;
                entries[end] = Entry {
                    met,
                    from: head as u32,
                    name: child,
                };
                end += 1;
            }
        }
    }
    end
}

// The shortest lost sequence, of equals the lowest, is written, and the answer is its length; none where nothing is lost.
pub fn search(old: &[u64], new: &[u64], elements: u32, sequence: &mut [u32]) -> Option<u32>
    requires blocks { Blocks old.now new.now elements }
    requires sequence_places_in_bounds { sequence_places ≤ length sequence.old }
    ensures { found_of result sequence.new ≡ answered (searched (pairs old.now new.now) elements sequence_places) sequence.old }
{
    let mut seen = [0u8; SEQUENCE_PLACES];
    let mut entries = [Entry {
        met: 0,
        from: 0,
        name: 0,
    }; SEQUENCE_PLACES];
    seen[BEGIN as usize] = 1;
    entries[0].met = BEGIN;
    let mut head: usize = 0;
    let mut tail: usize = 1;
    while head < tail {
        if is_losing(old, new, entries[head].met) {
            let length = spell(&entries, head, sequence);
            return Some(length as u32);
        }
        tail = expand(old, new, elements, &mut seen, &mut entries, head, tail);
        head += 1;
    }
    None
}
