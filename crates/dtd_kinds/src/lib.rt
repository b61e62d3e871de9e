// Item 4, "DTD files as they come": "the four kinds and two statuses" of attributes, as the readers of `paper` say. Assumes nothing.
#![tactic(auto)]

ghost use Rattle.std.specs.Prelude.{◌≡◌, ◌≤◌, length, drop};
ghost use Rattle.paper.specs.Dtd.Readers.{word_end, reference, kind, status};
ghost use Rattle.dtd_words.specs.Words.{Came};
ghost use Rattle.dtd_kinds.specs.Kinds.{whole_word, KindCame, StatusCame};

use dtd_words::{Fault, byte_at, more_at, word_at};
use paper::{Kind, Refusal, Status};

// A word ends here: no character of a name follows.
fn end_at(text: &[u8], at: usize) -> Result<usize, Fault>
    requires { at ≤ length text.now }
    ensures { Came text.now result (word_end (drop at text.now)) }
{
    if more_at(text, at) {
        Err(Fault {
            refusal: Refusal::DtdText,
            at,
        })
    } else {
        Ok(at)
    }
}

// Those bytes, and no character of a name after them.
fn whole_at(text: &[u8], at: usize, word: &[u8]) -> Result<usize, Fault>
    requires { at ≤ length text.now }
    ensures { Came text.now result (whole_word word.now (drop at text.now)) }
{
    let end = word_at(text, at, word)?;
    end_at(text, end)
}

// A kind, and the place behind it.
#[derive(Clone, Copy)]
pub struct Kinded {
    pub kind: Kind,
    pub at: usize,
}

// Behind "ID", at an R: "REF" or "REFS".
fn reference_at(text: &[u8], at: usize) -> Result<Kinded, Fault>
    requires { at ≤ length text.now }
    ensures { KindCame text.now result (reference (drop at text.now)) }
{
    let end = word_at(text, at, b"REF")?;
    if byte_at(text, end, b'S') {
        let end = whole_at(text, end, b"S")?;
        return Ok(Kinded {
            kind: Kind::Idrefs,
            at: end,
        });
    }
    let end = end_at(text, end)?;
    Ok(Kinded {
        kind: Kind::Idref,
        at: end,
    })
}

// "CDATA", or "ID" and then nothing, "REF" or "REFS".
pub fn kind_at(text: &[u8], at: usize) -> Result<Kinded, Fault>
    requires { at ≤ length text.now }
    ensures { KindCame text.now result (kind (drop at text.now)) }
{
    if byte_at(text, at, b'C') {
        let end = whole_at(text, at, b"CDATA")?;
        return Ok(Kinded {
            kind: Kind::Cdata,
            at: end,
        });
    }
    let end = word_at(text, at, b"ID")?;
    if byte_at(text, end, b'R') {
        return reference_at(text, end);
    }
    let end = end_at(text, end)?;
    Ok(Kinded {
        kind: Kind::Id,
        at: end,
    })
}

// A status, and the place behind it.
#[derive(Clone, Copy)]
pub struct Stated {
    pub status: Status,
    pub at: usize,
}

// "#REQUIRED" or "#IMPLIED".
pub fn status_at(text: &[u8], at: usize) -> Result<Stated, Fault>
    requires { at ≤ length text.now }
    ensures { StatusCame text.now result (status (drop at text.now)) }
{
    let end = word_at(text, at, b"#")?;
    if byte_at(text, end, b'R') {
        let end = word_at(text, end, b"REQUIRED")?;
        return Ok(Stated {
            status: Status::Required,
            at: end,
        });
    }
    let end = word_at(text, end, b"IMPLIED")?;
    Ok(Stated {
        status: Status::Implied,
        at: end,
    })
}
