// A line judged as a record, and its data bytes.
ghost use Rattle.std.specs.Prelude.{◌≡◌, ◌+◌, ◌<◌, min, length};
ghost use Rattle.limits.specs.Limits.{largest_image};
ghost use Rattle.hextext.specs.Record.{line_of, typed, judge};
ghost use Rattle.hexline.specs.Line.{data_byte};
ghost use Rattle.hexline.specs.JudgeLaws.{SpelledAt};

use hexdigits::{digit, digits_sum};
use hextext::{
    CHECKSUM, Header, LineRecord, NOT_A_RECORD, RECORD_NOT_TAKEN, Record, TOO_LARGE, TextLine,
};
use limits::LARGEST_IMAGE;

// The byte that the two characters at a place spell; more than a byte where they are no digits.
fn byte_at(line: &[u8], at: usize) -> usize
    requires { at + 1 < length line.now }
    ensures { SpelledAt line.now at result }
{
    let high = usize::from(digit(line[at]));
    let low = usize::from(digit(line[at + 1]));
    high * 16 + low
}

// A line without its line end, as a record: form, then checksum.
#[tactic(auto, using(crate::specs::JudgeLaws::bad_short, crate::specs::JudgeLaws::bad_colon, crate::specs::JudgeLaws::bad_length, crate::specs::JudgeLaws::bad_sum))]
pub fn judge_line(line: &[u8]) -> TextLine
    ensures { result ≡ line_of line.now }
{
    if line.len() < 11 {
        return Err(NOT_A_RECORD);
    }
    if line[0] != b':' {
        return Err(NOT_A_RECORD);
    }
    let count = byte_at(line, 1);
    if line.len() - 11 != count * 2 {
        return Err(NOT_A_RECORD);
    }
    let sum = digits_sum(&line[1..]).ok_or(NOT_A_RECORD)?;
    if sum != 0 {
        return Err(CHECKSUM);
    }
    let high = byte_at(line, 3);
    let low = byte_at(line, 5);
    let kind = byte_at(line, 7);
    let address = high * 256 + low;
    Ok(Header {
        count,
        address,
        kind,
    })
}

// A line's data byte number i, from 0, and 0 where it has none. The characters of a bad line are taken as they are.
#[tactic(auto, using(crate::specs::JudgeLaws::data_short, crate::specs::JudgeLaws::data_past, crate::specs::JudgeLaws::data_there))]
pub fn data_byte(line: &[u8], i: usize) -> u8
    ensures { result ≡ data_byte line.now i }
{
    if line.len() < 11 {
        return 0;
    }
    if byte_at(line, 1) <= i {
        return 0;
    }
    if line.len() - 11 < i * 2 {
        return 0;
    }
    (byte_at(line, 9 + i * 2) % 256) as u8
}

// A record in its place, with `at` bytes of image before it: type, count and address, then room.
#[tactic(auto, using(crate::specs::TypedLaws::typed_empty, crate::specs::TypedLaws::typed_astray, crate::specs::TypedLaws::typed_past, crate::specs::TypedLaws::typed_full, crate::specs::TypedLaws::typed_data, crate::specs::TypedLaws::typed_other, crate::specs::TypedLaws::typed_long, crate::specs::TypedLaws::typed_far, crate::specs::TypedLaws::typed_end))]
pub fn judge_header(room: usize, at: usize, header: Header) -> LineRecord
    ensures { result ≡ typed room at header.count header.address header.kind }
{
    if header.kind == 0 {
        if header.count == 0 {
            return Err(RECORD_NOT_TAKEN);
        }
        if header.address != at {
            return Err(RECORD_NOT_TAKEN);
        }
        if room < at {
            return Err(TOO_LARGE);
        }
        if room - at < header.count {
            return Err(TOO_LARGE);
        }
        return Ok(Record::Data(header.count));
    }
    if header.kind != 1 {
        return Err(RECORD_NOT_TAKEN);
    }
    if header.count != 0 {
        return Err(RECORD_NOT_TAKEN);
    }
    if header.address != 0 {
        return Err(RECORD_NOT_TAKEN);
    }
    Ok(Record::End)
}

// A line without its line end, judged in its place: by itself first.
pub fn judge_in_place(room: usize, at: usize, line: &[u8]) -> LineRecord
    ensures { result ≡ judge room at line.now }
{
    let header = judge_line(line)?;
    judge_header(room, at, header)
}

// The room that a buffer of `size` bytes gives an image.
pub fn room_in(size: usize) -> usize
    ensures { result ≡ min largest_image size }
{
    LARGEST_IMAGE.min(size)
}
