// A data record at the address that is due, as nearly all lines are: recognised by its characters, its data put as they are found.
ghost use Rattle.std.specs.Prelude.{◌+◌, ◌*◌, ◌≤◌, ◌<◌, length, take, drop};
ghost use Rattle.hexdigits.specs.Digits.{PutsBytes};
ghost use Rattle.hexlines.specs.LettersLaws.{When};
ghost use Rattle.hexlines.specs.CountLaws.{EndsAt, LineCounted, TellsCount, Counted};
ghost use Rattle.hexlines.specs.DueLaws.{RecordDue};
ghost use Rattle.hexlines.specs.DueLineLaws.{LineDue};

use crate::letters::{address_is, byte_is};
use hexdigits::{digit, put_bytes};
use limits::LARGEST_IMAGE;
use numbers::fields::Number;

// Data bytes of most records.
const USUAL: usize = 16;

// The first four characters of such a record below address 4,096, `:100`, as a number.
const USUAL_START: u32 = 0x3030_313a;

// Whether a line has this many characters, and then its line end.
fn ends_at(line: &[u8], end: usize) -> bool
    requires { end ≤ 521 }
    ensures { When result (EndsAt line.now end) }
{
    if line.len() == end + 1 {
        return line[end] == b'\n';
    }
    if line.len() != end + 2 {
        return false;
    }
    if line[end] != b'\r' {
        return false;
    }
    line[end + 1] == b'\n'
}

// Whether a line begins with those, and has the length of such a record and LF.
fn is_usual(line: &[u8]) -> bool
    ensures { When result (LineCounted line.now 16) }
{
    if line.len() != 44 {
        return false;
    }
    if u32::at(line, 0) != USUAL_START {
        return false;
    }
    line[43] == b'\n'
}

// The count of data bytes that a line tells, where it begins with a colon, has data and ends where the count says.
fn told_count(line: &[u8]) -> Option<usize>
    requires { 12 < length line.now }
    ensures { TellsCount line.now result }
{
    if is_usual(line) {
        return Some(USUAL);
    }
    if line[0] != b':' {
        return None;
    }
    let high = digit(line[1]);
    if 16 <= high {
        return None;
    }
    let low = digit(line[2]);
    if 16 <= low {
        return None;
    }
    let count = usize::from(high * 16 + low);
    if count == 0 {
        return None;
    }
    if ends_at(line, 11 + count * 2) {
        return Some(count);
    }
    None
}

// Puts the data. Where their number is a constant, no loop over blocks is left.
fn put_data(line: &[u8], count: usize, image: &mut [u8], at: usize) -> Option<u8>
    requires { (9 + count * 2 ≤ length line.now) × (count < 256) }
    ensures { PutsBytes (take (count * 2) (drop 9 line.now)) at image.old result image.new }
{
    if count == USUAL {
        return put_bytes(&line[9..41], image, at);
    }
    put_bytes(&line[9..9 + count * 2], image, at)
}

// Takes a line without its line end, which is as long as its count says, and gives the count. Where it is no such record, the image
// may hold what its characters say, and is cleared or written over when the line is judged.
fn take_counted(line: &[u8], count: usize, at: usize, image: &mut [u8]) -> Option<usize>
    requires { Counted line.now count }
    ensures { RecordDue line.now at image.old result image.new }
{
    if LARGEST_IMAGE - count < at {
        return None;
    }
    if !address_is(line, at) {
        return None;
    }
    let sum = put_data(line, count, image, at)?;
    let check = (256 - (count + at / 256 + at % 256 + usize::from(sum)) % 256) % 256;
    if byte_is(line, 9 + count * 2, check) {
        return Some(count);
    }
    None
}

// The same of a line with its line end.
pub fn take_due(line: &[u8], at: usize, image: &mut [u8]) -> Option<usize>
    requires { 12 < length line.now }
    ensures { LineDue line.now at image.old result image.new }
{
    let count = told_count(line)?;
    take_counted(&line[..11 + count * 2], count, at, image)
}
