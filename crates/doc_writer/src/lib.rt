// The writer of document files.
//
// It knows its answer before it writes: it first goes over its tokens without writing, and a refused call leaves the lent buffer as it
// was. Nothing is asked of either slice. The document's tree is not judged.
// Assumes nothing.
#![tactic(auto)]

ghost use Rattle.std.specs.Prelude.{◌≡◌, length};
ghost use Rattle.paper.specs.Files.{file_of};
ghost use Rattle.paper.specs.Files;
ghost use Rattle.docfile.specs.Outcome.{outcome, count_of, laid, small};
ghost use Rattle.doc_writer.specs.Writer.{Ready};

use docfile::Count;
use numbers::{put_number, width};
use paper::{MOST_TOKENS, MOST_VALUE, Refusal};

// Whether no token is too large.
fn all_small(tokens: &[u32]) -> bool
    ensures { result ≡ small tokens.now }
{
    let mut fine = true;
    for t in tokens {
        fine &= *t <= MOST_VALUE;
    }
    fine
}

// How many bytes the tokens take.
fn count_bytes(tokens: &[u32]) -> usize
    ensures { result ≡ length (file_of tokens.now) }
{
    let mut n: usize = 0;
    for t in tokens {
        n += width(*t);
    }
    n
}

// The bytes of the tokens go into the buffer.
fn put_bytes(tokens: &[u32], file: &mut [u8])
    requires { Ready tokens.now file.old }
    ensures { file.new ≡ laid 0 (file_of tokens.now) file.old }
{
    let mut at: usize = 0;
    for t in tokens {
        at = put_number(file, at, *t);
    }
}

// Every token of the slice goes into the first bytes of the buffer, and the bytes are counted.
fn put(tokens: &[u32], file: &mut [u8]) -> Result<u32, Refusal>
    ensures { outcome (count_of result) file.new ≡ Files.write tokens.now file.old }
{
    if tokens.len() > MOST_TOKENS {
        return Err(Refusal::Room);
    }
    if !all_small(tokens) {
        return Err(Refusal::Shape);
    }
    let n = count_bytes(tokens);
    if n > file.len() {
        return Err(Refusal::Room);
    }
    put_bytes(tokens, file);
    Ok(n as u32)
}

// Writes every token of the slice into the first bytes of the buffer.
pub fn write(tokens: &[u32], file: &mut [u8]) -> Count
    ensures { outcome result file.new ≡ Files.write tokens.now file.old }
{
    Count::from(put(tokens, file))
}
