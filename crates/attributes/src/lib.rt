// The attributes of one element: whether they are as they must be.
//
// One pass over the attributes and values behind a start. It notes which attributes were met and how many values the last one still
// takes, and tells where it ended. Only where the table has fixed attributes, a second one looks at their values. The table is a proper
// one, and nothing is written. Assumes nothing.
#![tactic(auto)]

ghost use Rattle.std.specs.Prelude.{◌≡◌, true, ◌≤◌, ◌<◌, length, get_or};
ghost use Rattle.paper.specs.Table.{proper};
ghost use Rattle.attributes.specs.Attributes.{attribute_of, value_of, finished, Listed, Judged};

use fixed_values::fixed_kept;
use paper::FIXED_AT;
use sets::{has, is_within, with};
use table::cell;
use tokens::{is_attribute, is_value, number};

// What the attributes and values passed so far leave: the attributes met; how many values the last one still takes, 2 for any number;
// and whether each was as it must be.
#[derive(Clone, Copy)]
struct Met {
    set: u64,
    takes: u32,
    good: bool,
}

// Behind an attribute. One that is not allowed, or stands where a value is due, is a fault.
fn attribute(allowed: u64, idrefs: u64, m: Met, a: u32) -> Met
    ensures { result ≡ attribute_of allowed idrefs m a }
{
    if a as usize >= paper::MOST_ATTRIBUTES {
        return Met {
            set: m.set,
            takes: 2,
            good: false,
        };
    }
    if !has(allowed, a) {
        return Met {
            set: m.set,
            takes: 2,
            good: false,
        };
    }
    let set = with(m.set, a);
    let good = m.good & (m.takes != 1);
    if has(idrefs, a) {
        return Met {
            set,
            takes: 2,
            good,
        };
    }
    Met {
        set,
        takes: 1,
        good,
    }
}

// Behind a value. One more than the attribute takes is a fault.
fn value(m: Met) -> Met
    ensures { result ≡ value_of m }
{
    let good = m.good & (m.takes != 0);
    if m.takes == 1 {
        return Met {
            set: m.set,
            takes: 0,
            good,
        };
    }
    Met {
        set: m.set,
        takes: m.takes,
        good,
    }
}

// That place, where no attribute and no value is left: `Ok`, if the last attribute has its value, and each that is required was met.
fn finished(required: u64, m: Met, place: usize) -> Result<usize, usize>
    ensures { result ≡ finished required m place }
{
    let good = m.good & (m.takes != 1) & is_within(required, m.set);
    if good {
        return Ok(place);
    }
    Err(place)
}

// "attributes (8): each one allowed, all required present, one value each unless IDREFS": the place behind those that stand from a place
// on; `Ok`, if they are so.
fn listed(table: &[u64], e: usize, doc: &[u32], at: usize) -> Result<usize, usize>
    requires { (proper table.now ≡ true) × (e < get_or table.now 0 0) × (at ≤ length doc.now) }
    ensures { Listed table.now e doc.now at result }
{
    let allowed = cell(table, e, paper::ALLOWED_AT);
    let idrefs = cell(table, e, paper::IDREFS_AT);
    let required = cell(table, e, paper::REQUIRED_AT);
    let mut m = Met {
        set: 0,
        takes: 2,
        good: true,
    };
    for i in at..doc.len() {
        let t = doc[i];
        if is_attribute(t) {
            m = attribute(allowed, idrefs, m, number(t));
            continue;
        }
        if is_value(t) {
            m = value(m);
            continue;
        }
        return finished(required, m, i);
    }
    finished(required, m, doc.len())
}

// The same, and a fixed attribute "may be absent, and if present has exactly that value, else 8".
pub fn attributes(table: &[u64], e: usize, doc: &[u32], at: usize) -> Result<usize, usize>
    requires { (proper table.now ≡ true) × (e < get_or table.now 0 0) × (at ≤ length doc.now) }
    ensures { Judged table.now e doc.now at result }
{
    let after = listed(table, e, doc, at)?;
    if table[FIXED_AT] == 0 {
        return Ok(after);
    }
    let kept = fixed_kept(table, e, doc, at);
    if !kept {
        return Err(after);
    }
    Ok(after)
}
