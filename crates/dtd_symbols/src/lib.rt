// Item 4, "DTD files as they come": the symbols of a model, written from right to left along its text. Assumes nothing.
//
// A suffix and a separator stand behind the part before which their symbols go. Each is kept with that part's depth until the part's
// first byte is met; what is kept stands for a symbol that is still to be written, so there is room for all of a model's.
#![tactic(auto)]

ghost use Rattle.std.specs.Prelude.{◌≡◌, false, ◌-◌, ◌<◌, length, drop};
ghost use Rattle.dtd_symbol_laws.specs.Machine.{after};
ghost use Rattle.dtd_symbols.specs.Bytes.{Symbol};
ghost use Rattle.dtd_symbols.specs.Turns.{Ready, Turned};
ghost use Rattle.dtd_symbols.specs.Written.{Spelled, Written};

use dtd_names::find_name;
use dtd_owed::{Held, owe, settle, write_name};
use dtd_words::is_more;
use paper::MOST_SYMBOLS;

const CHOICE: u8 = paper::CHOICE as u8;

const SEQUENCE: u8 = paper::SEQUENCE as u8;

const OPTIONAL: u8 = paper::OPTIONAL as u8;

const ZERO_OR_MORE: u8 = paper::ZERO_OR_MORE as u8;

const ONE_OR_MORE: u8 = paper::ONE_OR_MORE as u8;

// The symbol of a suffix or a separator.
fn symbol_for(b: u8) -> Option<u8>
    ensures { Symbol b result }
{
    match b {
        b'?' => Some(OPTIONAL),
        b'*' => Some(ZERO_OR_MORE),
        b'+' => Some(ONE_OR_MORE),
        b',' => Some(SEQUENCE),
        b'|' => Some(CHOICE),
        _ => None,
    }
}

// Whether the byte before i belongs to a name.
fn more_before(text: &[u8], from: usize, i: usize) -> bool
    requires { i < length text.now }
    ensures { result ≡ after (i - from) (drop from text.now) false }
{
    if i <= from {
        return false;
    }
    is_more(text[i - 1])
}

// The step at place i of a text that is gone over as far as `from`.
fn turn(
    text: &[u8],
    from: usize,
    i: usize,
    names: &[usize],
    held: Held,
    depths: &mut [usize],
    symbols: &mut [u8],
    out: &mut [u8],
) -> Held
    requires { Ready text.now names.now from i held depths.old symbols.old out.old }
    ensures { Turned text.now names.now from i held depths.old symbols.old out.old depths.new symbols.new out.new result }
{
    let b = text[i];
    if is_more(b) {
        if more_before(text, from, i) {
            return held;
        }
        let number = find_name(text, names, i);
        return write_name(held, number, depths, symbols, out);
    }
    if b == b'(' {
        let outside = Held {
            depth: held.depth - 1,
            owed: held.owed,
            at: held.at,
        };
        return settle(outside, held.depth, depths, symbols, out);
    }
    if b == b')' {
        return Held {
            depth: held.depth + 1,
            owed: held.owed,
            at: held.at,
        };
    }
    match symbol_for(b) {
        None => held,
        Some(symbol) => owe(held, symbol, depths, symbols),
    }
}

// The symbols of the model that stands from `from` to before `to`, at the end of `out`: the place in `out` at which they begin.
pub fn write_symbols(text: &[u8], from: usize, to: usize, names: &[usize], out: &mut [u8]) -> usize
    requires { Spelled text.now names.now from to out.old }
    ensures { Written text.now names.now from to out.old out.new result }
{
    let mut depths: [usize; MOST_SYMBOLS] = [0; MOST_SYMBOLS];
    let mut symbols: [u8; MOST_SYMBOLS] = [0; MOST_SYMBOLS];
    let mut held = Held {
        depth: 0,
        owed: 0,
        at: MOST_SYMBOLS,
    };
    for i in (from..to).rev() {
        held = turn(text, from, i, names, held, &mut depths, &mut symbols, out);
    }
    held.at
}
