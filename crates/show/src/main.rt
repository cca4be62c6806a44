// Reads a HEX text on standard input, and prints the verdict of each level on its image. Where the text can't be read or the page
// can't be written, it says why on standard error; a text that can't be read gets no verdict.
#![tactic(auto)]

ghost use Rattle.std.specs.Prelude.{◌≤◌, length, IfOk};

use display::PAGE_SIZE;
use limits::LONGEST_SHOWN_TEXT;
use std::io;
use std::io::{Cursor, Read, Write};

// one byte more than any text that is judged, so that a longer one shows
const TEXT_ROOM: usize = LONGEST_SHOWN_TEXT + 1;

// more than the longest that is shown of an error: its reason has 255 characters at most, and after it stands a number
const ERROR_ROOM: usize = 300;

// Reads until the buffer is full or the input ends, and answers how many bytes there are. Each read has all the room that is left: by
// `io::copy`, which reads a part at a time, a socket that keeps the borders of messages loses what a message has beyond it.
fn read_whole<R: Read>(input: &mut R, buffer: &mut [u8]) -> io::Result<usize>
    ensures { IfOk result (λ n. n ≤ length buffer.new) }
{
    let mut done: usize = 0;
    while done < buffer.len() {
        let more = input.read(&mut buffer[done..])?;
        if more == 0 {
            return Ok(done);
        }
        done += more;
    }
    Ok(done)
}

// Of what is shown of an error the reason, in the system's words: its number stands after them.
fn reason(shown: &str) -> &str {
    match shown.split_once(" (os error ") {
        Some((reason, _)) => reason,
        None => shown,
    }
}

// Says on standard error what failed, and why.
fn fail(rt: &impl Eprint, what: &str, error: io::Error) -> io::Result<()> {
    let mut room = [0u8; ERROR_ROOM];
    let mut shown = Cursor::new(&mut room[..]);
    write!(shown, "{error}")?;
    let end = shown.position() as usize;
    let text = match str::from_utf8(&room[..end.min(ERROR_ROOM)]) {
        Ok(text) => reason(text),
        Err(_) => "",
    };
    eprintln!(rt; "{what}: {text}")
}

fn main(rt: HostRuntime) -> io::Result<()> {
    let mut text = [0u8; TEXT_ROOM];
    let length = match read_whole(&mut rt.stdin(), &mut text) {
        Ok(length) => length,
        Err(error) => return fail(&rt, "show: the text can't be read", error),
    };
    let mut page = [0u8; PAGE_SIZE];
    let end = display::show(&text[..length], &mut page);
    match rt.write_all(&page[..end]) {
        Ok(()) => Ok(()),
        Err(error) => fail(&rt, "show: the verdict can't be written", error),
    }
}
