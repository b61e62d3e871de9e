// Document files: the tokens of a document as seven-bit numbers and nothing else. Here is their reader; `doc_writer` has the writer.
//
// The reader knows its answer before it writes: a refused call leaves the lent buffer as it was. It decodes into an array of its own and
// copies. Nothing is asked of either slice. The document's tree is not judged.
// Assumes nothing.
#![tactic(auto)]

ghost use Rattle.std.specs.Prelude.{◌≡◌, ◌≤◌, min, length};
ghost use Rattle.paper.specs.Basics.{most_tokens};
ghost use Rattle.paper.specs.Files.{tokens_in};
ghost use Rattle.paper.specs.Files;
ghost use Rattle.docfile.specs.Outcome.{outcome, count_of};
ghost use Rattle.docfile.specs.Reader.{Roomy, Decoded};

use copying::copy;
use numbers::number_at;
use paper::{DONE, MOST_TOKENS, Refusal};

// "reader and writer [answer] a number and the count of tokens or bytes, 0 when refused"
#[repr(C)]
#[derive(Clone, Copy)]
pub struct Count {
    pub number: u32,
    pub count: u32,
}

impl From<Result<u32, Refusal>> for Count {
    ghost from_gives = { λ made c. c ≡ count_of made };

    fn from(made: Result<u32, Refusal>) -> Count {
        match made {
            Ok(count) => Count {
                number: DONE,
                count,
            },
            Err(refusal) => Count {
                number: refusal.number(),
                count: 0,
            },
        }
    }
}

// The tokens of the file go into the first places of `got`, and are counted; or it is said why the file is refused where there are `room`
// places, and `got` is of no use.
fn decode(file: &[u8], got: &mut [u32], room: usize) -> Result<usize, Refusal>
    requires { Roomy file.now got.old room }
    ensures { Decoded (tokens_in room file.now) room got.new result }
{
    let mut at: usize = 0;
    let mut held: usize = 0;
    while at < file.len() {
        let Some(n) = number_at(file, at) else {
            return Err(Refusal::Broken);
        };
        if held == room {
            return Err(Refusal::Room);
        }
        got[held] = n.value;
        held += 1;
        at = n.next;
    }
    Ok(held)
}

// Reads the file by way of `got`, which has a place for every token that may come: "no place, in the lent buffer or past 8,192".
fn read_by(file: &[u8], tokens: &mut [u32], got: &mut [u32]) -> Result<u32, Refusal>
    requires { min (length file.now) most_tokens ≤ length got.old }
    ensures { outcome (count_of result) tokens.new ≡ Files.read file.now tokens.old }
{
    let room = tokens.len().min(MOST_TOKENS);
    let n = decode(file, got, room)?;
    copy(tokens, 0, got, 0, n);
    Ok(n as u32)
}

// A file has no more tokens than bytes. One of so many bytes or fewer is read by way of a short array, which is sooner made.
const SHORT: usize = 512;

// Reads it by way of an array of so many places. The short array and the long one never stand on the stack together.
#[inline(never)]
fn read_in<const PLACES: usize>(file: &[u8], tokens: &mut [u32]) -> Result<u32, Refusal>
    requires { (min (length file.now) most_tokens ≤ PLACES) × (PLACES ≤ most_tokens) }
    ensures { outcome (count_of result) tokens.new ≡ Files.read file.now tokens.old }
{
    let mut got = [0u32; PLACES];
    read_by(file, tokens, &mut got)
}

// The tokens of the file go into the first places of the buffer, and are counted.
pub fn read_tokens(file: &[u8], tokens: &mut [u32]) -> Result<u32, Refusal>
    ensures { outcome (count_of result) tokens.new ≡ Files.read file.now tokens.old }
{
    if file.len() <= SHORT {
        return read_in::<SHORT>(file, tokens);
    }
    read_in::<MOST_TOKENS>(file, tokens)
}

// Reads the file into the first places of the buffer.
pub fn read(file: &[u8], tokens: &mut [u32]) -> Count
    ensures { outcome result tokens.new ≡ Files.read file.now tokens.old }
{
    Count::from(read_tokens(file, tokens))
}
