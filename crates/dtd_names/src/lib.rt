// Item 4, "DTD files as they come": names, each told by the place in the text at which it begins. Assumes nothing.
#![tactic(auto)]

ghost use Rattle.std.specs.Prelude.{◌≡◌, ◌≤◌, option_copied, length, drop};
ghost use Rattle.paper.specs.Dtd.Letters.{same};
ghost use Rattle.paper.specs.Dtd.Numbering.{number_in};
ghost use Rattle.paper.specs.Dtd.Readers.{name};
ghost use Rattle.paper.specs.Dtd.Reading.{mention};
ghost use Rattle.dtd_words.specs.Words.{Came};
ghost use Rattle.dtd_names.specs.Named.{name_at, names_at, known_in};
ghost use Rattle.dtd_names.specs.Spelled.{spelled};

use dtd_words::{Fault, first_at, is_more, more_at, name_end};
use paper::Refusal;

// The text from a place on; none behind its end.
fn rest_of(text: &[u8], at: usize) -> &[u8]
    ensures { result.now ≡ drop at text.now }
{
    text.get(at..).unwrap_or(&[])
}

// The name that begins at a place; it is empty where none does.
pub fn name_of(text: &[u8], at: usize) -> &[u8]
    ensures { result.now ≡ name_at text.now at }
{
    let rest = rest_of(text, at);
    &rest[..rest.iter().take_while(|b| is_more(**b)).count()]
}

// How many bytes the name at a place has.
pub fn name_length(text: &[u8], at: usize) -> usize
    ensures { result ≡ length (name_at text.now at) }
{
    name_of(text, at).len()
}

// Whether that name begins at a place: from its end to its front, since many names differ at their ends alone.
fn is_name(text: &[u8], at: usize, name: &[u8]) -> bool
    ensures { result ≡ spelled name.now (drop at text.now) }
{
    let n = name.len();
    if text.len() < n || text.len() - n < at {
        return n == 0;
    }
    let rest = &text[at..];
    let front = &rest[..n];
    name.iter()
        .rev()
        .zip(front.iter().rev())
        .all(|(b, c)| b == c)
        && !more_at(rest, n)
}

// Whether the names at two places are the same.
pub fn same_at(text: &[u8], a: usize, b: usize) -> bool
    ensures { result ≡ same (name_at text.now a) (name_at text.now b) }
{
    is_name(text, b, name_of(text, a))
}

// The number of a name among the names; how many they are, if it is none of them.
pub fn find_name(text: &[u8], names: &[usize], at: usize) -> usize
    ensures { result ≡ number_in (names_at text.now names.now) (name_at text.now at) }
{
    let name = name_of(text, at);
    for i in 0..names.len() {
        if is_name(text, names[i], name) {
            return i;
        }
    }
    names.len()
}

// Whether a name may be mentioned.
pub fn known_at(text: &[u8], known: Option<&[usize]>, at: usize) -> bool
    ensures { result ≡ known_in text.now (option_copied known.entry) (name_at text.now at) }
{
    match known {
        None => true,
        Some(names) => find_name(text, names, at) < names.len(),
    }
}

// A name.
pub fn name_at(text: &[u8], at: usize) -> Result<usize, Fault>
    requires { at ≤ length text.now }
    ensures { Came text.now result (name (drop at text.now)) }
{
    if first_at(text, at) {
        Ok(name_end(text, at))
    } else {
        Err(Fault {
            refusal: Refusal::DtdText,
            at,
        })
    }
}

// A name in a model or of an ATTLIST.
pub fn mention_at(text: &[u8], at: usize, known: Option<&[usize]>) -> Result<usize, Fault>
    requires { at ≤ length text.now }
    ensures { Came text.now result (mention (known_in text.now (option_copied known.entry)) (drop at text.now)) }
{
    if first_at(text, at) && known_at(text, known, at) {
        Ok(name_end(text, at))
    } else {
        Err(Fault {
            refusal: Refusal::DtdText,
            at,
        })
    }
}
