// Item 4, "DTD files as they come": an element's content in the schema file, from where it stands in the text. Assumes nothing.
#![tactic(auto)]

ghost use Rattle.std.specs.Prelude.{◌≡◌, eqb, drop};
ghost use Rattle.paper.specs.Dtd.Letters.{begins};
ghost use Rattle.dtd_content_bytes.specs.Kinds.{kind_from};
ghost use Rattle.dtd_content_bytes.specs.Models.{Modelled, ModelPut};
ghost use Rattle.dtd_content_bytes.specs.Contents.{Specified, ContentPut};

use copying::copy;
use dtd_symbols::write_symbols;
use dtd_words::skip_white;
use numbers::put_number;
use paper::MOST_SYMBOLS;

const EMPTY: u8 = paper::EMPTY as u8;

const TEXT_ONLY: u8 = paper::TEXT_ONLY as u8;

const MODEL: u8 = paper::MODEL as u8;

// Whether that byte stands there.
fn byte_at(text: &[u8], at: usize, b: u8) -> bool
    ensures { result ≡ begins (λ c. eqb c b) (drop at text.now) }
{
    if text.len() <= at {
        return false;
    }
    text[at] == b
}

// The kind of the content that stands there.
fn kind_at(text: &[u8], at: usize) -> u8
    ensures { result ≡ kind_from (drop at text.now) }
{
    if !byte_at(text, at, b'(') {
        return EMPTY;
    }
    if byte_at(text, skip_white(text, at + 1), b'#') {
        return TEXT_ONLY;
    }
    MODEL
}

// The model that stands from `from` to before `to`: the count of its symbols, and the symbols; the place after them.
fn put_model(
    text: &[u8],
    from: usize,
    to: usize,
    names: &[usize],
    out: &mut [u8],
    at: usize,
) -> usize
    requires { Modelled text.now names.now from to out.old at }
    ensures { ModelPut text.now names.now from to out.old at result out.new }
{
    let mut symbols: [u8; MOST_SYMBOLS] = [0; MOST_SYMBOLS];
    let begin = write_symbols(text, from, to, names, &mut symbols);
    let n = MOST_SYMBOLS - begin;
    let next = put_number(out, at, n as u32);
    copy(out, next, &symbols, begin, n);
    next + n
}

// The content that stands from `from` to before `to`: its kind, and for a model its symbols.
pub fn put_content(
    text: &[u8],
    from: usize,
    to: usize,
    names: &[usize],
    out: &mut [u8],
    at: usize,
) -> usize
    requires { Specified text.now names.now from to out.old at }
    ensures { ContentPut text.now names.now from to out.old at result out.new }
{
    let kind = kind_at(text, from);
    out[at] = kind;
    if kind != MODEL {
        return at + 1;
    }
    put_model(text, from, to, names, out, at + 1)
}
