// Item 4, "DTD files as they come": a model at a place of a text, in one walk along it without a stack. Assumes nothing.
#![tactic(auto)]

ghost use Rattle.std.specs.Prelude.{◌≡◌, ◌≤◌, option_copied, true, false, Ok, eqb, length, drop};
ghost use Rattle.paper.specs.Dtd.Letters.{begins, closing};
ghost use Rattle.paper.specs.Dtd.Readers.{bounded};
ghost use Rattle.paper.specs.Dtd.Reading.{group};
ghost use Rattle.dtd_names.specs.Named.{known_in};
ghost use Rattle.dtd_models.specs.Bytes.{is_suffix, Suffixed, joint_at};
ghost use Rattle.dtd_brackets.specs.Separators.{joint};
ghost use Rattle.dtd_models.specs.Held.{Model, Stands, DueAt, Onward, Settles, Goes, Went, Begun};

use dtd_brackets::{Separator, digit_of, fits, pushed, separator_of, window_at};
use dtd_names::mention_at;
use dtd_words::{Fault, byte_at, skip_white};
use paper::Refusal;

// `?`, `*` or `+`
fn is_suffix(b: u8) -> bool
    ensures { result ≡ is_suffix b }
{
    (b == b'?') | (b == b'*') | (b == b'+')
}

// How many bytes of suffix stand at a place.
fn suffix_at(text: &[u8], at: usize) -> usize
    requires { at ≤ length text.now }
    ensures { Suffixed text.now at result }
{
    text.get(at).is_some_and(|b| is_suffix(*b)) as usize
}

// The separator at a place.
fn separator_at(text: &[u8], at: usize) -> Option<Separator>
    ensures { joint result ≡ joint_at (drop at text.now) }
{
    text.get(at).and_then(|b| separator_of(*b))
}

// ---- the walk

// A place in a model: how many brackets are open, the innermost of them, and the symbols and names up to there.
#[derive(Clone, Copy)]
pub struct Place {
    at: usize,
    depth: usize,
    window: u64,
    symbols: usize,
    names: usize,
}

// A model that was read: the place behind it, and how many symbols and names it has.
#[derive(Clone, Copy)]
pub struct Modelled {
    pub at: usize,
    pub symbols: usize,
    pub names: usize,
}

// Where the walk stands: a part is due; behind a part; or at its end.
#[derive(Clone, Copy)]
pub enum Walk {
    Due(Place),
    Behind(Place),
    Ended(Modelled),
}

// A part is due: a bracket opens, or a name.
fn part_at(text: &[u8], from: usize, p: Place, known: Option<&[usize]>) -> Result<Walk, Fault>
    requires { DueAt (known_in text.now (option_copied known)) text.now from p }
    ensures { Onward (known_in text.now (option_copied known.entry)) text.now from p.at result }
{
    if byte_at(text, p.at, b'(') {
        return Ok(Walk::Due(Place {
            at: skip_white(text, p.at + 1),
            depth: p.depth + 1,
            window: pushed(p.window),
            ..p
        }));
    }
    let end = mention_at(text, p.at, known)?;
    let marks = suffix_at(text, end);
    Ok(Walk::Behind(Place {
        at: end + marks,
        symbols: p.symbols + 1 + marks,
        names: p.names + 1,
        ..p
    }))
}

// Past the white space behind a part.
fn settled(text: &[u8], from: usize, p: Place) -> Place
    requires { Stands text.now from p }
    ensures { Settles text.now from p result }
{
    Place {
        at: skip_white(text, p.at),
        ..p
    }
}

// A bracket closes.
fn close_at(text: &[u8], from: usize, p: Place) -> Walk
    requires { Stands text.now from p × (begins (eqb closing) (drop p.at text.now) ≡ true) }
    ensures { Goes text.now from p (Ok result) }
{
    let next = p.at + 1;
    let marks = suffix_at(text, next);
    if p.depth == 1 {
        return Walk::Ended(Modelled {
            at: next + marks,
            symbols: p.symbols + marks,
            names: p.names,
        });
    }
    Walk::Behind(Place {
        at: next + marks,
        depth: p.depth - 1,
        window: p.window / 4,
        symbols: p.symbols + marks,
        ..p
    })
}

// A separator, if it is the first of its bracket or the same as those before it.
fn join_at(text: &[u8], from: usize, p: Place) -> Result<Walk, Fault>
    requires { Stands text.now from p × (begins (eqb closing) (drop p.at text.now) ≡ false) }
    ensures { Goes text.now from p result }
{
    let fault = Fault {
        refusal: Refusal::DtdText,
        at: p.at,
    };
    let Some(separator) = separator_at(text, p.at) else {
        return Err(fault);
    };
    let window = window_at(text, from, p.at, p.window);
    if !fits(window, separator) {
        return Err(fault);
    }
    Ok(Walk::Due(Place {
        at: skip_white(text, p.at + 1),
        window: window / 4 * 4 + digit_of(Some(separator)),
        symbols: p.symbols + 1,
        ..p
    }))
}

// Behind a part: a bracket closes, or a separator.
fn behind_at(text: &[u8], from: usize, p: Place) -> Result<Walk, Fault>
    requires { Stands text.now from p }
    ensures { Went text.now from p result }
{
    let q = settled(text, from, p);
    if byte_at(text, q.at, b')') {
        Ok(close_at(text, from, q))
    } else {
        join_at(text, from, q)
    }
}

// Before the first byte of a model.
fn begun_at(text: &[u8], at: usize) -> Result<Walk, Fault>
    requires { at ≤ length text.now }
    ensures { Begun text.now at result }
{
    if !byte_at(text, at, b'(') {
        return Err(Fault {
            refusal: Refusal::DtdText,
            at,
        });
    }
    Ok(Walk::Due(Place {
        at: skip_white(text, at + 1),
        depth: 1,
        window: 1,
        symbols: 0,
        names: 0,
    }))
}

// From the bracket that opens to behind the one that closes and its suffix; how many symbols and names it has.
pub fn model_at(text: &[u8], at: usize, known: Option<&[usize]>) -> Result<Modelled, Fault>
    requires { at ≤ length text.now }
    ensures { Model text.now result (bounded (group (known_in text.now (option_copied known.entry))) (drop at text.now)) }
{
    let mut walk = begun_at(text, at)?;
    loop {
        match walk {
            Walk::Due(p) => {
                walk = part_at(text, at, p, known)?;
            }
            Walk::Behind(p) => {
                walk = behind_at(text, at, p)?;
            }
            Walk::Ended(model) => {
                return Ok(model);
            }
        }
    }
}
