// Item 4, "DTD files as they come": the symbols of a model that are kept until the part before which they go is met. Assumes nothing.
//
// Each is kept with the part's depth. What is kept stands for a symbol that is still to be written, so the buffer has room for it.
#![tactic(auto)]

ghost use Rattle.std.specs.Prelude.{◌+◌, ◌<◌, ◌^◌, length};
ghost use Rattle.dtd_owed.specs.Held.{Room, Owes, Settled};
ghost use Rattle.dtd_owed.specs.Named.{Naming, Named};

const NAMED: u8 = paper::NAMED as u8;

// What is done from a place of the text on: how many `)` have no `(` yet, how many symbols are kept, and where those written begin.
#[derive(Clone, Copy)]
pub struct Held {
    pub depth: usize,
    pub owed: usize,
    pub at: usize,
}

// The symbol is kept for the part that ends here.
pub fn owe(held: Held, symbol: u8, depths: &mut [usize], symbols: &mut [u8]) -> Held
    requires { (held.owed < length depths.old) × (held.owed < length symbols.old) × (held.depth + 1 < 2 ^ 64) }
    ensures { Owes held symbol depths.old symbols.old depths.new symbols.new result }
{
    let n = held.owed;
    depths[n] = held.depth + 1;
    symbols[n] = symbol;
    Held {
        depth: held.depth,
        owed: n + 1,
        at: held.at,
    }
}

// All that is kept for the part of that depth is written.
pub fn settle(held: Held, level: usize, depths: &[usize], symbols: &[u8], out: &mut [u8]) -> Held
    requires { Room held depths.now symbols.now out.old }
    ensures { Settled held level depths.now symbols.now out.old out.new result }
{
    let mut at = held.at;
    for top in (0..held.owed).rev() {
        if depths[top] != level {
            return Held {
                depth: held.depth,
                owed: top + 1,
                at,
            };
        }
        at -= 1;
        out[at] = symbols[top];
    }
    Held {
        depth: held.depth,
        owed: 0,
        at,
    }
}

// The name's number is written, and what is kept for it.
pub fn write_name(
    held: Held,
    number: usize,
    depths: &[usize],
    symbols: &[u8],
    out: &mut [u8],
) -> Held
    requires naming { Naming held number depths.now symbols.now out.old }
    requires depth_bound { held.depth + 1 < 2 ^ 64 }
    ensures { Named held number depths.now symbols.now out.old out.new result }
{
    let at = held.at - 1;
    out[at] = NAMED + number as u8;
    let named = Held {
        depth: held.depth,
        owed: held.owed,
        at,
    };
    settle(named, held.depth + 1, depths, symbols, out)
}
