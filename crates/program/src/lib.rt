// The edit program: every byte that it prints for its three files.
//
// `output` goes over schema, document, check and edits in turn and puts the lines into a buffer. It asks nothing of the files. Assumes
// nothing.
#![tactic(auto)]

ghost use Rattle.std.specs.Prelude.{◌≡◌, true, ◌&&◌, ◌≤◌, length};
ghost use Rattle.std.proofs.Math.Option.{some};
ghost use Rattle.paper.specs.Basics.{most_file};
ghost use Rattle.paper.specs.Files.{reading};
ghost use Rattle.paper.specs.Schema.{schema_of};
ghost use Rattle.paper.specs.Table.{proper};
ghost use Rattle.paper.specs.Rules.{of_table};
ghost use Rattle.paper.specs.Judgement.{checking};
ghost use Rattle.paper.specs.Program;
ghost use Rattle.paper.specs.Program.{check_lines, document_lines, schema_lines, places, printed};
ghost use Rattle.lines.specs.Put.{Put};
ghost use Rattle.lines.specs.Lines.{text};
ghost use Rattle.edit_lines.specs.Run.{output_room};
ghost use Rattle.program.specs.Stages.{given};

use checks::check;
use edit_lines::{OUTPUT, put_edits};
use lines::{put_due_stop, put_line};
use paper::{DONE, MOST_ELEMENTS, MOST_FILE, MOST_TOKENS, Refusal, TABLE_WORDS};

// "After a check that isn't 0 nothing more is printed." Item 7: the counts are "written by a check that says valid and carried along by edits".
fn put_check(
    table: &[u64],
    doc: &mut [u32],
    used: usize,
    file: &[u8],
    out: &mut [u8],
    counts: &mut [i32; MOST_ELEMENTS],
) -> usize
    requires { (proper table.now ≡ true) × (length file.now ≤ most_file) × (length out.old ≡ output_room) }
    ensures { Put out.old 0 (text (check_lines (of_table table.now) doc.old used (checking (of_table table.now) doc.old used) file.now)) result out.new }
{
    match check(table, doc, used, counts) {
        Err(fault) => put_line(out, 0, 0, fault.refusal.number(), fault.place, used),
        Ok(()) => {
            let next = put_line(out, 0, 0, DONE, 0, used);
            put_edits(table, doc, used, file, out, next, counts)
        }
    }
}

// The document file is read into a buffer of 8,192 zeros, and the counts beside it are zeros.
fn put_document(table: &[u64], doc: &[u8], edits: &[u8], out: &mut [u8]) -> usize
    requires { (proper table.now ≡ true) × (length edits.now ≤ most_file) × (length out.old ≡ output_room) }
    ensures { Put out.old 0 (text (document_lines (of_table table.now) (reading doc.now places) edits.now)) result out.new }
{
    let mut tokens = [0u32; MOST_TOKENS];
    let used = match docfile::read_tokens(doc, &mut tokens) {
        Ok(count) => count as usize,
        Err(refusal) => return put_due_stop(out, 0, refusal),
    };
    let mut counts = [0i32; MOST_ELEMENTS];
    put_check(table, &mut tokens, used, edits, out, &mut counts)
}

// The schema file is translated.
fn put_schema(schema: &[u8], doc: &[u8], edits: &[u8], out: &mut [u8]) -> usize
    requires { (length edits.now ≤ most_file) × (length out.old ≡ output_room) }
    ensures { Put out.old 0 (text (schema_lines (schema_of schema.now) doc.now edits.now)) result out.new }
{
    let mut table = [0u64; TABLE_WORDS];
    match schema::translate(schema, &mut table) {
        Ok(()) => put_document(&table, doc, edits, out),
        Err(refusal) => put_due_stop(out, 0, refusal),
    }
}

// Whether no file is too long.
fn short(schema: &[u8], doc: &[u8], edits: &[u8]) -> bool
    ensures { result ≡ Program.opened (some schema.now) && Program.opened (some doc.now) && Program.opened (some edits.now) }
{
    (schema.len() <= MOST_FILE) & (doc.len() <= MOST_FILE) & (edits.len() <= MOST_FILE)
}

// "First, a file over 65,536 bytes or not to be opened stops with 5; then schema, document, check and edits follow in turn."
// `opened` says that all three were. The bytes go to the buffer's front; their number.
pub fn output(
    opened: bool,
    schema: &[u8],
    doc: &[u8],
    edits: &[u8],
    out: &mut [u8; OUTPUT],
) -> usize
    ensures { Put out.old 0 (printed (given opened schema.now) (given opened doc.now) (given opened edits.now)) result out.new }
{
    if !opened {
        return put_due_stop(out, 0, Refusal::Room);
    }
    if !short(schema, doc, edits) {
        return put_due_stop(out, 0, Refusal::Room);
    }
    put_schema(schema, doc, edits, out)
}
