// A record taken into an image.
ghost use Rattle.hexline.specs.Taken.{TakesRecord};

use crate::judge::{judge_in_place, room_in};
use hexdigits::put_bytes;
use hextext::{LineRecord, Record};

// A line without its line end, judged in its place, with `at` bytes of image before it; its data in the image. Where it is refused,
// the image is all zeros.
pub fn take_record(line: &[u8], at: usize, image: &mut [u8]) -> LineRecord
    ensures { TakesRecord line.now at image.old result image.new }
{
    let judged = judge_in_place(room_in(image.len()), at, line);
    match judged {
        Ok(Record::Data(count)) => {
            put_bytes(&line[9..9 + count * 2], image, at);
        }
        Ok(Record::End) => {}
        Err(_) => numbers::slices::clear_from(image, 0),
    }
    judged
}
