// Where lines end.
ghost use Rattle.std.specs.Prelude.{◌≡◌, length};
ghost use Rattle.hextext.specs.Text.{line_length, bare};
ghost use Rattle.hexline.specs.Line.{next_line};

// How many characters the first line of a text has: those before its LF, or all.
#[tactic(auto, using(crate::specs::EndsLaws::before_first, crate::specs::EndsLaws::before_more, crate::specs::EndsLaws::before_lf, crate::specs::EndsLaws::before_end))]
pub fn line_length(text: &[u8]) -> usize
    ensures { result ≡ line_length text.now }
{
    for (i, character) in text.iter().enumerate() {
        if *character == b'\n' {
            return i;
        }
    }
    text.len()
}

// How many characters a line has without the one CR that may stand before its LF.
#[tactic(auto, using(crate::specs::EndsLaws::bare_none, crate::specs::EndsLaws::bare_cr, crate::specs::EndsLaws::bare_other))]
pub fn bare_length(line: &[u8]) -> usize
    ensures { result ≡ length (bare line.now) }
{
    match line {
        [front @ .., b'\r'] => front.len(),
        _ => line.len(),
    }
}

// Where the next line starts, if a line end stands at `end`. By tests: over patterns of `text[end..]` the proof did not close.
#[tactic(auto, using(crate::specs::EndsLaws::next_short, crate::specs::EndsLaws::next_lf, crate::specs::EndsLaws::next_other, crate::specs::EndsLaws::next_cut, crate::specs::EndsLaws::next_cr, crate::specs::EndsLaws::next_crlf))]
pub fn next_line(text: &[u8], end: usize) -> Option<usize>
    ensures { result ≡ next_line text.now end }
{
    if text.len() <= end {
        return None;
    }
    if text[end] == b'\n' {
        return Some(end + 1);
    }
    if text[end] != b'\r' {
        return None;
    }
    let last = end + 1;
    if text.len() <= last {
        return None;
    }
    if text[last] != b'\n' {
        return None;
    }
    Some(end + 2)
}
