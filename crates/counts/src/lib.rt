// Counts of elements beside a document, one for each of 48 names (item 7): how an edit moves them, and a fresh count.
//
// Only what comes and what goes is looked at. `moves` answers the counts after an edit, so that a refused edit leaves the counts; `put`
// writes them. A count may be any number before an edit: sums are exact.
// Assumes nothing.
#![tactic(auto)]

ghost use Rattle.std.specs.Prelude.{◌≡◌, true, map, ◌≤◌, length, pos, ◌+ℤ◌, ◌-ℤ◌};
ghost use Rattle.paper.specs.Basics.{most_tokens, most_elements, all};
ghost use Rattle.paper.specs.Tokens.{toks};
ghost use Rattle.paper.specs.Counts.{moved_from, fresh};
ghost use Rattle.counts.specs.Moved.{within, few, FewEach, moved_by, Numbers};

use tallies::tally;

// A count, with what comes added and what goes taken away; none where it is "below 0 or above 8,192".
fn moved_one(n: i32, comes: u32, goes: u32) -> Option<u32>
    requires { (comes ≤ most_tokens) × (goes ≤ most_tokens) }
    ensures { result ≡ within (n +ℤ pos comes -ℤ pos goes) }
{
    let sum = (n as i64) + (comes as i64) - (goes as i64);
    if sum < 0 {
        return None;
    }
    if sum > 8192 {
        return None;
    }
    Some(sum as u32)
}

// Each count, moved.
fn moved_all(
    counts: &[i32; paper::MOST_ELEMENTS],
    goes: &[u32; paper::MOST_ELEMENTS],
    comes: &[u32; paper::MOST_ELEMENTS],
) -> Option<[u32; paper::MOST_ELEMENTS]>
    requires { FewEach goes.now × FewEach comes.now }
    ensures { Numbers (moved_by counts.now goes.now comes.now) result }
{
    let mut after = [0u32; paper::MOST_ELEMENTS];
    for e in 0..paper::MOST_ELEMENTS {
        after[e] = moved_one(counts[e], comes[e], goes[e])?;
    }
    Some(after)
}

// "carried along by edits": the counts after an edit by which some tokens go and others come, if all are 0 to 8,192.
pub fn moves(
    counts: &[i32; paper::MOST_ELEMENTS],
    goes: &[u32],
    comes: &[u32],
    elements: u32,
) -> Option<[u32; paper::MOST_ELEMENTS]>
    requires { (elements ≤ most_elements) × (length goes.now ≤ most_tokens) × (length comes.now ≤ most_tokens) }
    ensures { Numbers (moved_from (toks goes.now) (toks comes.now) elements 0 counts.now) result }
{
    let mut gone = [0u32; paper::MOST_ELEMENTS];
    tally(goes, elements, &mut gone);
    let mut come = [0u32; paper::MOST_ELEMENTS];
    tally(comes, elements, &mut come);
    moved_all(counts, &gone, &come)
}

// The counts as they are, if all are 0 to 8,192.
pub fn read(counts: &[i32; paper::MOST_ELEMENTS]) -> Option<[u32; paper::MOST_ELEMENTS]>
    ensures { Numbers counts.now result }
{
    let none = [0u32; paper::MOST_ELEMENTS];
    moved_all(counts, &none, &none)
}

// Writes counts that are 0 to 8,192.
pub fn put(counts: &mut [i32; paper::MOST_ELEMENTS], after: &[u32; paper::MOST_ELEMENTS])
    requires { all few after.now ≡ true }
    ensures { counts.new ≡ map pos after.now }
{
    for e in 0..paper::MOST_ELEMENTS {
        counts[e] = after[e] as i32;
    }
}

// "a fresh count": writes the counts of some tokens.
pub fn count(doc: &[u32], elements: u32, counts: &mut [i32; paper::MOST_ELEMENTS])
    requires { (elements ≤ most_elements) × (length doc.now ≤ most_tokens) }
    ensures { counts.new ≡ fresh elements (toks doc.now) }
{
    let mut found = [0u32; paper::MOST_ELEMENTS];
    tally(doc, elements, &mut found);
    put(counts, &found);
}
