// Item 4, "DTD files as they come": ELEMENT declarations at a place of a DTD text. Assumes nothing.
#![tactic(auto)]

ghost use Rattle.std.specs.Prelude.{◌≡◌, ◌≤◌, option_copied, length, drop};
ghost use Rattle.dtd_words.specs.Words.{Came};
ghost use Rattle.dtd_names.specs.Named.{name_at, names_at, known_in};
ghost use Rattle.dtd_elements.specs.Steps.{Gave};
ghost use Rattle.dtd_elements.specs.Heads.{heading, keyword, new_name, ending, Declaring};
ghost use Rattle.dtd_elements.specs.Elements.{element_after, Stands};

use dtd_contents::contentspec_at;
use dtd_names::{find_name, name_at};
use dtd_words::{Fault, skip_white, white_at, word_at};
use paper::{MOST_ELEMENTS, Refusal};

// A word, and white space.
pub fn keyword_at(text: &[u8], at: usize, word: &[u8]) -> Result<usize, Fault>
    requires { at ≤ length text.now }
    ensures { Came text.now result (keyword word.now (drop at text.now)) }
{
    let end = word_at(text, at, word)?;
    white_at(text, end)
}

// `S? >`: the end of a declaration.
pub fn end_at(text: &[u8], at: usize) -> Result<usize, Fault>
    requires { at ≤ length text.now }
    ensures { Came text.now result (ending (drop at text.now)) }
{
    word_at(text, skip_white(text, at), b">")
}

// The name of an element that is declared: "An element [..] declared twice", "the 49th element where its name ends, if the name is new".
fn new_element(text: &[u8], at: usize, elements: &[usize]) -> Result<usize, Fault>
    requires { Declaring text.now at elements.now }
    ensures { Gave (λ e. e) (λ e n. n ≡ name_at text.now at) text.now result (new_name (names_at text.now elements.now) (drop at text.now)) }
{
    let end = name_at(text, at)?;
    if find_name(text, elements, at) < elements.len() {
        return Err(Fault {
            refusal: Refusal::DtdText,
            at,
        });
    }
    if elements.len() == MOST_ELEMENTS {
        return Err(Fault {
            refusal: Refusal::Schema,
            at,
        });
    }
    Ok(end)
}

// The head of a declaration: where its name begins, and the place behind it.
#[derive(Clone, Copy)]
pub struct Head {
    pub name: usize,
    pub at: usize,
}

// Behind `<!`: `ELEMENT`, white space, the name, white space.
pub fn head_at(text: &[u8], at: usize, elements: &[usize]) -> Result<Head, Fault>
    requires { Declaring text.now at elements.now }
    ensures { Gave (λ h. h.at) (λ h n. n ≡ name_at text.now h.name) text.now result (heading (names_at text.now elements.now) (drop at text.now)) }
{
    let name = keyword_at(text, at, b"ELEMENT")?;
    let end = new_element(text, name, elements)?;
    let behind = white_at(text, end)?;
    Ok(Head { name, at: behind })
}

// An ELEMENT declaration: where its name begins, where its content begins and ends, and the place behind it.
#[derive(Clone, Copy)]
pub struct Element {
    pub name: usize,
    pub content: usize,
    pub end: usize,
    pub at: usize,
}

// An ELEMENT declaration, from behind `<!` on.
pub fn element_at(
    text: &[u8],
    at: usize,
    elements: &[usize],
    known: Option<&[usize]>,
) -> Result<Element, Fault>
    requires { Declaring text.now at elements.now }
    ensures { Gave (λ e. e.at) (λ e d. Stands text.now e.name e.content e.end d) text.now result (element_after (known_in text.now (option_copied known.entry)) (names_at text.now elements.now) (drop at text.now)) }
{
    let head = head_at(text, at, elements)?;
    let content = contentspec_at(text, head.at, known)?;
    let behind = end_at(text, content.at)?;
    Ok(Element {
        name: head.name,
        content: head.at,
        end: content.at,
        at: behind,
    })
}
