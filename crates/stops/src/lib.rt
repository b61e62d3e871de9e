// Where the content of one element stops to be as it must be; and the pass over content of texts alone.
//
// It holds of any tokens; what it asks is that the place lies in the document. Assumes nothing.
#![tactic(auto)]

ghost use Rattle.std.specs.Prelude.{◌≡◌, ◌^◌, ◌≤◌, ◌<◌, length, drop};
ghost use Rattle.paper.specs.Tokens.{toks};
ghost use Rattle.stops.specs.Stop.{texts_stop, walked};

use tokens::{is_end, is_start, is_text};

// The children that stand from a place on are to be so many texts or fewer, and nothing else: how many there are, or the place of the
// child with which they stop to be so.
pub fn texts_stop(doc: &[u32], at: usize, most: u64) -> Result<u32, usize>
    requires { (at ≤ length doc.now) × (most < 2 ^ 32) }
    ensures { result ≡ walked (texts_stop most at (drop at (toks doc.now))) (drop at (toks doc.now)) }
{
    let mut children: u32 = 0;
    for i in at..doc.len() {
        let t = doc[i];
        if is_end(t) {
            return Ok(children);
        }
        if is_start(t) {
            return Err(i);
        }
        if is_text(t) {
            if children as u64 == most {
                return Err(i);
            }
            children += 1;
        }
    }
    Ok(children)
}
