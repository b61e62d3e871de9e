// Walks over a set, with a word or a name for each number.
//
// The laws stand in specs/, over the width. Assumes nothing.
#![tactic(auto)]

ghost use Rattle.std.specs.Prelude.{◌≡◌, true, length};
ghost use Rattle.paper.specs.Basics.{distinct};
ghost use Rattle.paper.specs.Table.{chosen};
ghost use Rattle.sets.specs.Chosen.{small};
ghost use Rattle.set_walks.specs.Joined.{joined};
ghost use Rattle.set_walks.specs.Named.{next_named};

use sets::{Members, has, with};

// The members of `to` go into each word of `follow` at a member of `from`.
pub fn connect(follow: &mut [u64], from: u64, to: u64)
    requires { length follow.old ≡ 64 }
    ensures { follow.new ≡ joined from to follow.old }
{
    for k in Members(from) {
        follow[k as usize] |= to;
    }
}

// No two members have one name. The names of members are below 64, so a word holds those that were seen.
pub fn one_each(set: u64, names: &[u64]) -> bool
    requires { (length names.now ≡ 64) × (small (chosen set names.now) ≡ true) }
    ensures { result ≡ distinct (chosen set names.now) }
{
    let mut seen: u64 = 0;
    for k in Members(set) {
        let name = names[k as usize] as u32;
        if has(seen, name) {
            return false;
        }
        seen = with(seen, name);
    }
    true
}

// The lowest member that has the name.
pub fn next_named(set: u64, names: &[u64], name: u64) -> Option<u32>
    requires { length names.now ≡ 64 }
    ensures { result ≡ next_named set names.now name }
{
    for k in Members(set) {
        if names[k as usize] == name {
            return Some(k);
        }
    }
    None
}
