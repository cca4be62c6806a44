// Any line, judged from its beginning: what gives every refusal.
ghost use Rattle.std.specs.Prelude.{◌≡◌};
ghost use Rattle.hexlines.specs.Taken.{TakesLine};
ghost use Rattle.hexlines.specs.AnyLineLaws.{characters_inside};

use hexline::{bare_length, take_record};
use hextext::LineRecord;

// A line's characters without its line end, and none where it has no line end: then it is no record, as no characters are.
#[tactic(auto, using(crate::specs::AnyLineLaws::inside_fits, crate::specs::AnyLineLaws::inside_ended, crate::specs::AnyLineLaws::inside_empty, crate::specs::AnyLineLaws::inside_other))]
fn inside(line: &[u8]) -> &[u8]
    ensures { result.now ≡ characters_inside line.now }
{
    match line {
        [front @ .., b'\n'] => &front[..bare_length(front)],
        _ => &line[..0],
    }
}

pub fn take_any(line: &[u8], at: usize, image: &mut [u8]) -> LineRecord
    ensures { TakesLine line.now at image.old result image.new }
{
    take_record(inside(line), at, image)
}
