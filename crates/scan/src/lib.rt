// The scan of one element, a token at a time: whether a token may stand where the scan is, and the scan behind it.
//
// Both go by a table that is lent. Assumes nothing.
#![tactic(auto)]

ghost use Rattle.std.specs.Prelude.{◌≡◌, ◌+◌, ◌≤◌, ◌<◌, ◌%◌, ◌/◌};
ghost use Rattle.paper.specs.Basics.{most_deep, most_number};
ghost use Rattle.scan.specs.Scan.{rules, rule, stands, passed};

// The rows of RULES.
const FOLLOW: usize = 0;

const NUMBERS: usize = 1;

const RISE: usize = 2;

const ATTRIBUTE: usize = 3;

const VALUE: usize = 4;

// How many numbers a token can have, and how many elements can be open.
const ALL: u32 = paper::MOST_NUMBER + 1;

const DEEPEST: u32 = paper::MOST_DEEP as u32;

// For each sort, from 0 to 7: the sorts that may stand next, a bit for each; how many numbers there are; one more than what the level
// rises by; 1 for an attribute; 1 for a value.
pub const RULES: [[u32; 8]; 5] = [
    [0, 30, 14, 14, 32, 62, 0, 0],
    [0, ALL, 1, ALL, ALL, ALL, 0, 0],
    [1, 2, 0, 1, 1, 1, 1, 1],
    [0, 0, 0, 0, 1, 0, 0, 0],
    [0, 0, 0, 0, 0, 1, 0, 0],
];

// What the tokens passed leave: the sorts that may stand next, a bit for each; the least number that an attribute may have there;
// and how many elements are open.
#[derive(Clone, Copy)]
pub struct Scan {
    pub next: u32,
    pub least: u32,
    pub level: u32,
}

// The number in a row of the table for the sort of a token.
fn rule(table: &[[u32; 8]; 5], row: usize, t: u32) -> u32
    requires { (table.now ≡ rules) × (row < 5) }
    ensures { result ≡ rule row (t % 8) }
{
    let sort = (t % paper::SORTS) as usize;
    table[row][sort]
}

// Whether a token may stand where the scan is. An attribute's number is `least` or more; of other numbers a product with 0 asks nothing.
pub fn stands(table: &[[u32; 8]; 5], s: Scan, t: u32) -> bool
    requires { (table.now ≡ rules) × (s.least ≤ most_number + 1) }
    ensures { result ≡ stands s (t % 8) (t / 8) }
{
    let n = t / paper::SORTS;
    if s.level == 0 {
        return false;
    }
    if DEEPEST < s.level {
        return false;
    }
    if rule(table, NUMBERS, t) <= n {
        return false;
    }
    if (s.next >> (t % paper::SORTS)) % 2 == 0 {
        return false;
    }
    s.least * rule(table, ATTRIBUTE, t) <= n
}

// The scan behind a token that may stand. After an attribute the next one is larger, after a value that stays so; else any will do.
pub fn passed(table: &[[u32; 8]; 5], s: Scan, t: u32) -> Scan
    requires { (table.now ≡ rules) × (s.least ≤ most_number + 1) × (1 ≤ s.level) × (s.level ≤ most_deep) }
    ensures { result ≡ passed s (t % 8) (t / 8) }
{
    let n = t / paper::SORTS;
    let attribute = rule(table, ATTRIBUTE, t);
    let value = rule(table, VALUE, t);
    Scan {
        next: rule(table, FOLLOW, t),
        least: s.least * value + (n + 1) * attribute,
        level: s.level + rule(table, RISE, t) - 1,
    }
}
