// The record of a line: its data written into the image, its parts judged.
ghost use Rattle.std.specs.Prelude.{◌≡◌, ◌≤◌, min, length};
ghost use Rattle.limits.specs.Limits.{largest_image};
ghost use Rattle.hexread.specs.RecordLaws.{Bounded, judged_parts, Counted, RecordTaken};

use crate::digits::{DigitTable, NO_DIGIT};
use hexdigits::put_bytes;
use hexline::judge_header;
use hextext::{CHECKSUM, Header, LineRecord, NOT_A_RECORD};

// A record judged by its parts, the data by their sum. One test stands for all pairs: NO_DIGIT is above the sum of six bytes.
#[tactic(auto, using(crate::specs::RecordLaws::parts_bad_pair, crate::specs::RecordLaws::parts_bad_sum, crate::specs::RecordLaws::parts_typed))]
fn judge_parts(
    room: usize,
    at: usize,
    count: usize,
    high: usize,
    low: usize,
    kind: usize,
    data: u8,
    check: usize,
) -> LineRecord
    requires { Bounded count high low kind check }
    ensures { result ≡ judged_parts room at count high low kind «data» check }
{
    let sum = count + high + low + kind + usize::from(data) + check;
    if NO_DIGIT <= sum {
        return Err(NOT_A_RECORD);
    }
    if sum % 256 != 0 {
        return Err(CHECKSUM);
    }
    let address = high * 256 + low;
    judge_header(
        room,
        at,
        Header {
            count,
            address,
            kind,
        },
    )
}

// The record of a line that is as long as its count says, judged, its data in the image where they have room.
pub fn take_record(
    digits: &DigitTable,
    line: &[u8],
    count: usize,
    image: &mut [u8],
    at: usize,
    room: usize,
) -> LineRecord
    requires { Counted line.now count × (at ≤ room) × (room ≡ min largest_image (length image.old)) }
    ensures { RecordTaken result line.now image.old image.new room at }
{
    if room - at < count {
        return hexline::take_record(line, at, image);
    }
    let high = digits.pair(line, 3);
    let low = digits.pair(line, 5);
    let kind = digits.pair(line, 7);
    let end = 9 + count * 2;
    let check = digits.pair(line, end);
    let Some(data) = put_bytes(&line[9..end], image, at) else {
        return Err(NOT_A_RECORD);
    };
    judge_parts(room, at, count, high, low, kind, data, check)
}
