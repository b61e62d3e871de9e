// Item 4, "DTD files as they come": the characters of a comment, and where it ends, as the readers of `paper` say. Assumes nothing.
#![tactic(auto)]

ghost use Rattle.std.specs.Prelude.{◌≡◌, ◌≤◌, ◌<◌, OnOk, Bool, ℕ, length, drop};
ghost use Rattle.paper.specs.Dtd.Letters.{first_of_two, first_of_three, first_of_four, later, second, third};
ghost use Rattle.paper.specs.Dtd.Readers.{byte, two, three, four, char, bounded, inside};
ghost use Rattle.dtd_words.specs.Words.{Came};
ghost use Rattle.dtd_comments.specs.Chars.{plain, ByteCame};

use dtd_words::{Fault, byte_at, word_at};
use paper::Refusal;

// XML 1.0, [2]: Char, in UTF-8
fn is_two(a: u8) -> bool
    ensures { result ≡ first_of_two a }
{
    (194 <= a) & (a <= 223)
}

fn is_three(a: u8) -> bool
    ensures { result ≡ first_of_three a }
{
    (224 <= a) & (a <= 239)
}

fn is_four(a: u8) -> bool
    ensures { result ≡ first_of_four a }
{
    (240 <= a) & (a <= 244)
}

fn is_plain(a: u8) -> bool
    ensures { result ≡ plain a }
{
    ((32 <= a) & (a <= 127) | (a == b'\t') | (a == b'\n') | (a == b'\r')) & (a != b'-')
}

fn is_later(b: u8) -> bool
    ensures { result ≡ later b }
{
    (128 <= b) & (b <= 191)
}

fn is_second(a: u8, b: u8) -> bool
    ensures { result ≡ second a b }
{
    is_later(b)
        & !((a == 224) & (b < 160))
        & !((a == 237) & (160 <= b))
        & !((a == 240) & (b < 144))
        & !((a == 244) & (144 <= b))
}

fn is_third(a: u8, b: u8, c: u8) -> bool
    ensures { result ≡ third a b c }
{
    is_later(c) & !((a == 239) & (b == 191) & (190 <= c))
}

// The byte at a place, if it passes a test.
fn tested_at<F: FnOnce(u8) -> bool>(text: &[u8], at: usize, passes: F) -> Result<u8, Fault>
    requires in_bounds { at ≤ length text.now }
    requires callable { F.IsAlwaysCallable passes }
    ensures inside { OnOk result (at < length text.now) }
    ensures read { (P : ℕ → Bool) → ((x : ℕ) (b : Bool) → F.post passes x b → b ≡ P x) → ByteCame text.now at result (byte P (drop at text.now)) }
{
    match text.get(at) {
        Some(&b) if passes(b) => Ok(b),
        _ => Err(Fault {
            refusal: Refusal::DtdText,
            at,
        }),
    }
}

// A character of two bytes, of three, and of four.
fn two_at(text: &[u8], at: usize) -> Result<usize, Fault>
    requires { at ≤ length text.now }
    ensures { Came text.now result (two (drop at text.now)) }
{
    tested_at(text, at, |a| is_two(a))?;
    tested_at(text, at + 1, |b| is_later(b))?;
    Ok(at + 2)
}

fn three_at(text: &[u8], at: usize) -> Result<usize, Fault>
    requires { at ≤ length text.now }
    ensures { Came text.now result (three (drop at text.now)) }
{
    let a = tested_at(text, at, |a| is_three(a))?;
    let b = tested_at(text, at + 1, |b| is_second(a, b))?;
    tested_at(text, at + 2, |c| is_third(a, b, c))?;
    Ok(at + 3)
}

fn four_at(text: &[u8], at: usize) -> Result<usize, Fault>
    requires { at ≤ length text.now }
    ensures { Came text.now result (four (drop at text.now)) }
{
    let a = tested_at(text, at, |a| is_four(a))?;
    tested_at(text, at + 1, |b| is_second(a, b))?;
    tested_at(text, at + 2, |c| is_later(c))?;
    tested_at(text, at + 3, |d| is_later(d))?;
    Ok(at + 4)
}

// A character that is no hyphen.
pub fn char_at(text: &[u8], at: usize) -> Result<usize, Fault>
    requires { at ≤ length text.now }
    ensures { Came text.now result (char (drop at text.now)) }
{
    match text.get(at) {
        Some(&a) if is_two(a) => two_at(text, at),
        Some(&a) if is_three(a) => three_at(text, at),
        Some(&a) if is_four(a) => four_at(text, at),
        Some(&a) if is_plain(a) => Ok(at + 1),
        _ => Err(Fault {
            refusal: Refusal::DtdText,
            at,
        }),
    }
}

// From behind `<!--` to behind `-->`.
pub fn comment_end(text: &[u8], at: usize) -> Result<usize, Fault>
    requires { at ≤ length text.now }
    ensures { Came text.now result (bounded inside (drop at text.now)) }
{
    let mut i = at;
    loop {
        let hyphen = byte_at(text, i, b'-');
        if hyphen && byte_at(text, i + 1, b'-') {
            return word_at(text, i + 1, b"->");
        }
        i = char_at(text, i + hyphen as usize)?;
    }
}
