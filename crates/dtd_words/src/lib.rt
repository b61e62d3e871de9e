// Item 4, "DTD files as they come": the smallest steps along a DTD text, each as the readers of `paper` say. Assumes nothing.
#![tactic(auto)]

ghost use Rattle.std.specs.Prelude.{◌≡◌, ◌≤◌, eqb, length, drop};
ghost use Rattle.paper.specs.Dtd.Letters.{is_white, is_first, is_more, begins, past};
ghost use Rattle.paper.specs.Dtd.Readers.{S, literal};
ghost use Rattle.dtd_words.specs.Places.{At};
ghost use Rattle.dtd_words.specs.Words.{Came};

use paper::Refusal;

// XML 1.0, [3]: S
pub fn is_white(b: u8) -> bool
    ensures { result ≡ is_white b }
{
    (b == b' ') | (b == b'\t') | (b == b'\r') | (b == b'\n')
}

// "Names are ASCII letters, digits and `- _ . :`, the first one a letter, `_` or `:`."
pub fn is_first(b: u8) -> bool
    ensures { result ≡ is_first b }
{
    (b'A' <= b) & (b <= b'Z') | (b'a' <= b) & (b <= b'z') | (b == b'_') | (b == b':')
}

pub fn is_more(b: u8) -> bool
    ensures { result ≡ is_more b }
{
    is_first(b) | (b'0' <= b) & (b <= b'9') | (b == b'-') | (b == b'.')
}

// Whether that byte stands there.
pub fn byte_at(text: &[u8], at: usize, byte: u8) -> bool
    ensures { result ≡ begins (eqb byte) (drop at text.now) }
{
    text.get(at) == Some(&byte)
}

// Whether a name begins there.
pub fn first_at(text: &[u8], at: usize) -> bool
    ensures { result ≡ begins is_first (drop at text.now) }
{
    text.get(at).is_some_and(|b| is_first(*b))
}

// Whether a character of a name stands there.
pub fn more_at(text: &[u8], at: usize) -> bool
    ensures { result ≡ begins is_more (drop at text.now) }
{
    text.get(at).is_some_and(|b| is_more(*b))
}

// Past the white space from `at` on.
pub fn skip_white(text: &[u8], at: usize) -> usize
    requires { at ≤ length text.now }
    ensures { At text.now result (past is_white (drop at text.now)) }
{
    at + text[at..].iter().take_while(|b| is_white(**b)).count()
}

// Past the name that goes on at `at`: "a name is the longest run of name characters".
pub fn name_end(text: &[u8], at: usize) -> usize
    requires { at ≤ length text.now }
    ensures { At text.now result (past is_more (drop at text.now)) }
{
    at + text[at..].iter().take_while(|b| is_more(**b)).count()
}

// Why a text is refused, and the place of what is at fault.
#[derive(Clone, Copy)]
pub struct Fault {
    pub refusal: Refusal,
    pub at: usize,
}

// White space, one byte of it or more: the place behind it.
pub fn white_at(text: &[u8], at: usize) -> Result<usize, Fault>
    requires { at ≤ length text.now }
    ensures { Came text.now result (S (drop at text.now)) }
{
    if text.get(at).is_some_and(|b| is_white(*b)) {
        Ok(skip_white(text, at))
    } else {
        Err(Fault {
            refusal: Refusal::DtdText,
            at,
        })
    }
}

// A word: the place behind it, or the first byte that is another than the word's.
pub fn word_at(text: &[u8], at: usize, word: &[u8]) -> Result<usize, Fault>
    requires { at ≤ length text.now }
    ensures { Came text.now result (literal word.now (drop at text.now)) }
{
    let mut end = at;
    for byte in word {
        if !byte_at(text, end, *byte) {
            return Err(Fault {
                refusal: Refusal::DtdText,
                at: end,
            });
        }
        end += 1;
    }
    Ok(end)
}
