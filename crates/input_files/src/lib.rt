// The edit program's three files: schema.dat, doc.dat and edits.dat in the folder that it is started in, opened and read.
//
// No contract says which bytes the system reads, so what it answers is kept with each file, and what follows from that is proved.
// Assumes nothing but the contracts of std's files.
#![tactic(auto)]

ghost use Rattle.std.specs.Prelude.{◌≡◌, ◌+◌, ◌≤◌, length};
ghost use Rattle.paper.specs.Basics.{most_file};
ghost use Rattle.input_files.specs.Files.{Holds, readable};

use paper::MOST_FILE;
use std::io::Read;
use std::rt::Files;
use std::{fs, io};

// Room for a file, and one byte more: a file that fills it is too long.
pub const ROOM: usize = MOST_FILE + 1;

// The three files.
#[derive(Clone, Copy)]
pub enum Name {
    Schema,
    Doc,
    Edits,
}

// A file as the system answered: which it is, whether it was opened, whether it was read with no error, and the bytes read.
#[derive(Drop)]
pub struct File {
    pub name: Name,
    pub opened: bool,
    pub whole: bool,
    pub len: usize,
    pub bytes: [u8; ROOM],
}

// What the opening of a file answered.
#[derive(Drop)]
struct Opened<F> {
    name: Name,
    answer: io::Result<F>,
}

// How many bytes were read, and whether no reading failed.
#[derive(Clone, Copy)]
struct Reading {
    len: usize,
    whole: bool,
}

fn room() -> [u8; ROOM]
    ensures { most_file + 1 ≡ length result }
{
    [0; ROOM]
}

// The file of that name, and what its opening answered.
fn open<R: Files>(rt: &R, name: Name) -> Opened<R::File>
    ensures { result.name ≡ name }
{
    let answer = match name {
        Name::Schema => fs::open(rt, "schema.dat"),
        Name::Doc => fs::open(rt, "doc.dat"),
        Name::Edits => fs::open(rt, "edits.dat"),
    };
    Opened { name, answer }
}

// The file's bytes go into the buffer, until it ends, a reading fails or there is no room.
fn read_all<R: Read>(file: &mut R, buffer: &mut [u8]) -> Reading
    ensures { result.len ≤ length buffer.new }
{
    let mut len = 0;
    while len < buffer.len() {
        match file.read(&mut buffer[len..]) {
            Ok(0) => return Reading { len, whole: true },
            Ok(more) => len += more,
            Err(_) => return Reading { len, whole: false },
        }
    }
    Reading { len, whole: true }
}

// The file of that name, read.
pub fn load(rt: &impl Files, name: Name) -> File
    ensures { Holds name result }
{
    let mut bytes = room();
    let o = open(rt, name);
    let of = o.name;
    match o.answer {
        Ok(mut file) => {
            let r = read_all(&mut file, &mut bytes);
            File {
                name: of,
                opened: true,
                whole: r.whole,
                len: r.len,
                bytes,
            }
        }
        Err(_) => File {
            name: of,
            opened: false,
            whole: false,
            len: 0,
            bytes,
        },
    }
}

// Whether the file could be opened and read.
pub fn was_read(f: &File) -> bool
    ensures { result ≡ readable f.now }
{
    f.opened & f.whole
}
