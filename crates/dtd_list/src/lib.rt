// Item 4, "DTD files as they come": the list of names, each ended by byte 10, as item 13 reads it. Assumes nothing.
//
// A name is told by the place in the text at which it begins. Names may have any length: they are counted up to the room there is.
#![tactic(auto)]

ghost use Rattle.std.specs.Prelude.{◌≡◌, ◌++◌, ◌+◌, ◌≤◌, ◌<◌, length};
ghost use Rattle.paper.specs.Dtd.Numbering.{listed};
ghost use Rattle.lines.specs.Put.{Put};
ghost use Rattle.dtd_names.specs.Named.{name_at, names_at};
ghost use Rattle.dtd_list.specs.Lengths.{up_to, Counting};
ghost use Rattle.dtd_list.specs.Lists.{ended};
ghost use Rattle.dtd_list.specs.Puts.{Roomy};

use dtd_names::name_length;
use dtd_words::more_at;

// What `from` bytes and the names come to, if it is at most `room`; room + 1, if it is more.
fn list_length(text: &[u8], names: &[usize], from: usize, room: usize) -> usize
    requires { Counting from room }
    ensures { result ≡ up_to room (from + length (listed (names_at text.now names.now))) }
{
    let mut n = from;
    for &name in names {
        let length = name_length(text, name);
        if room - n <= length {
            return room + 1;
        }
        n += length + 1;
    }
    n
}

// The length of the list, if it is at most `room`; room + 1, if it is more.
pub fn names_length(text: &[u8], elements: &[usize], attributes: &[usize], room: usize) -> usize
    requires { room < 18446744073709551615 }
    ensures { result ≡ up_to room (length (listed (names_at text.now elements.now ++ names_at text.now attributes.now))) }
{
    let n = list_length(text, elements, 0, room);
    if room < n {
        return n;
    }
    list_length(text, attributes, n, room)
}

// The name that begins at `at` goes into the buffer from a place on, and byte 10 after it; the place after them.
fn put_name(text: &[u8], at: usize, out: &mut [u8], to: usize) -> usize
    requires { to + length (name_at text.now at) < length out.old }
    ensures { Put out.old to (ended (name_at text.now at)) result out.new }
{
    let mut i = at;
    let mut k = to;
    while more_at(text, i) {
        out[k] = text[i];
        i += 1;
        k += 1;
    }
    out[k] = b'\n';
    k + 1
}

fn put_list(text: &[u8], names: &[usize], out: &mut [u8], to: usize) -> usize
    requires { Roomy text.now names.now out.old to }
    ensures { Put out.old to (listed (names_at text.now names.now)) result out.new }
{
    let mut k = to;
    for &name in names {
        k = put_name(text, name, out, k);
    }
    k
}

// The names of the elements, then those of the attributes; the place after them.
pub fn put_names(text: &[u8], elements: &[usize], attributes: &[usize], out: &mut [u8]) -> usize
    requires { length (listed (names_at text.now elements.now ++ names_at text.now attributes.now)) ≤ length out.old }
    ensures { Put out.old 0 (listed (names_at text.now elements.now ++ names_at text.now attributes.now)) result out.new }
{
    let k = put_list(text, elements, out, 0);
    put_list(text, attributes, out, k)
}
