// The edit program: reads schema.dat, doc.dat and edits.dat in the folder that it is started in, and prints the check and each edit.
//
// `input_files` opens and reads the three files, `program::output` makes every byte that is printed; here the bytes are written.
#![tactic(auto)]

ghost use Rattle.paper.specs.Program.{printed};
ghost use Rattle.lines.specs.Put.{Put};
ghost use Rattle.input_files.specs.Files.{Holds};
ghost use Rattle.run_edits.specs.Files.{content};

use edit_lines::OUTPUT;
use input_files::{File, Name, load, was_read};
use std::env::FillError;
use std::io;
use std::process::ExitCode;
use std::rt::{Env, Files};

// The bytes that the three files come to go to the buffer's front; their number.
fn make(schema: &File, doc: &File, edits: &File, out: &mut [u8; OUTPUT]) -> usize
    requires { Holds Name.Schema schema.now × Holds Name.Doc doc.now × Holds Name.Edits edits.now }
    ensures { Put out.old 0 (printed (content schema.now) (content doc.now) (content edits.now)) result out.new }
{
    let all = was_read(schema) & was_read(doc) & was_read(edits);
    let i = schema.len;
    let j = doc.len;
    let k = edits.len;
    let s = &schema.bytes;
    let d = &doc.bytes;
    let e = &edits.bytes;
    program::output(all, &s[..i], &d[..j], &e[..k], out)
}

// Prints what the three files come to.
fn print(rt: &impl Print, schema: &File, doc: &File, edits: &File) -> io::Result<()>
    requires { Holds Name.Schema schema.now × Holds Name.Doc doc.now × Holds Name.Edits edits.now }
{
    let mut out = [0u8; OUTPUT];
    let n = make(schema, doc, edits, &mut out);
    rt.write_all(&out[..n])
}

fn usage(rt: &impl Print) -> io::Result<()> {
    rt.write_all(b"usage: run_edits\n")?;
    rt.write_all(
        b"Reads schema.dat, doc.dat and edits.dat in this folder and prints a line for the check and for each edit:\n",
    )?;
    rt.write_all(
        b"its number, the answer, the place, the used length. A file that cannot be read or used prints stop and the answer.\n",
    )
}

// Whether it was started with an argument.
fn has_argument(rt: &impl Env) -> bool {
    match rt.arg(1, &mut [0; 1]) {
        Ok(_) | Err(FillError::TooLong) => true,
        Err(FillError::NotPresent) => false,
    }
}

// It takes no argument. With one, as --help, it says how it is used.
fn run(rt: &(impl Print + Files + Env)) -> io::Result<()> {
    if has_argument(rt) {
        return usage(rt);
    }
    let schema = load(rt, Name::Schema);
    let doc = load(rt, Name::Doc);
    let edits = load(rt, Name::Edits);
    print(rt, &schema, &doc, &edits)
}

// Output that cannot be written is told on standard error, and the status is 1.
fn main(rt: HostRuntime) -> ExitCode {
    match run(&rt) {
        Ok(()) => ExitCode::SUCCESS,
        Err(e) => {
            let _ = rt.eprintln(format_args!("run_edits: standard output: {e}"));
            ExitCode::FAILURE
        }
    }
}
