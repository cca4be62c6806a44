// Power-on and loads: what each event makes of a panel and its image. A level is widened by `as`: where it is the answer of a call, as that of
// `u32::from`, the search finds no proof of what the load makes of the panel.
ghost use Rattle.std.specs.Prelude.{◌≡◌, min, slice_set};
ghost use Rattle.lamp.specs.Panel.{level_kept, standing};
ghost use Rattle.lamp.specs.Events.{powered_on, text_loaded, text_begun, next_line, stopped_panel, stopped_by, next_taken, line_taken, whole_judged, text_ended};
ghost use Rattle.lamp.specs.LoadsLaws.{SmallImage, answer_panel, HasRoom, grown};

use crate::Panel;
use hextext::{NOT_A_RECORD, Record};
use refusals::Filled;

// A text is under way.
pub const AT_LINE: u8 = 1;

// Its end record is read.
pub const AT_END_RECORD: u8 = 2;

// Its image is accepted.
pub const AT_IMAGE: u8 = 3;

fn level_kept(level: u32) -> u8
    ensures { result ≡ level_kept level }
{
    u8::try_from(level).unwrap_or(0)
}

// A load that has ended.
fn after_load(level: u8, answer: Filled) -> Panel
    requires { SmallImage answer }
    ensures { result ≡ answer_panel level answer }
{
    match answer {
        Ok(size) => Panel {
            lines_or_detail: 0,
            size_or_number: size as u32,
            level,
            stage: AT_IMAGE,
            first: 0,
        },
        Err(refusal) => Panel {
            lines_or_detail: refusal.detail,
            size_or_number: refusal.number,
            level,
            stage: 0,
            first: 0,
        },
    }
}

// Power-on, with an image of `size` bytes in the buffer, which is judged; of 0 bytes, where none was kept.
pub fn power_on(level: u32, image: &mut [u8], size: usize) -> Panel
    ensures { standing result image.new ≡ powered_on level size image.old }
{
    let kept = level_kept(level);
    let held = size.min(image.len());
    let judged = panel::keep_accepted(kept as u32, image, held);
    let answer = refusals::settled(judged, image);
    after_load(kept, answer)
}

// A whole text.
pub fn load(panel: Panel, text: &[u8], image: &mut [u8]) -> Panel
    ensures { standing result image.new ≡ text_loaded text.now (standing panel image.old) }
{
    let answer = panel::load(text, panel.level as u32, image);
    after_load(panel.level, answer)
}

// A text begins: the image is cleared.
#[tactic(auto, using(crate::specs::LoadsLaws::begun))]
pub fn begin(panel: Panel, image: &mut [u8]) -> Panel
    ensures { standing result image.new ≡ text_begun (standing panel image.old) }
{
    numbers::slices::clear_from(image, 0);
    Panel {
        lines_or_detail: 0,
        size_or_number: 0,
        level: panel.level,
        stage: AT_LINE,
        first: 0,
    }
}

fn next_line(panel: Panel) -> u64
    ensures { result ≡ next_line panel }
{
    panel.lines_or_detail.wrapping_add(1)
}

// A panel without an image, by a fault in the next line.
fn stopped(panel: Panel, number: u32) -> Panel
    ensures { result ≡ stopped_panel number panel }
{
    Panel {
        lines_or_detail: next_line(panel),
        size_or_number: number,
        stage: 0,
        first: 0,
        ..panel
    }
}

// The same where the fault is that a line is missing, or one too many.
fn stop(panel: Panel, image: &mut [u8]) -> Panel
    ensures { standing result image.new ≡ stopped_by 1 (standing panel image.old) }
{
    numbers::slices::clear_from(image, 0);
    stopped(panel, NOT_A_RECORD)
}

// A text with `count` bytes more, which are in the image. The first byte of all is kept in the panel, and 0 stands in its place.
fn grow(panel: Panel, count: usize, image: &mut [u8]) -> Panel
    requires { HasRoom panel count image.old }
    ensures { standing result image.new ≡ grown panel count image.old }
{
    let grown = Panel {
        lines_or_detail: next_line(panel),
        size_or_number: panel.size_or_number + count as u32,
        stage: AT_LINE,
        ..panel
    };
    if panel.size_or_number == 0 {
        let first = image[0];
        image[0] = 0;
        return Panel { first, ..grown };
    }
    grown
}

// A line of a text that is under way.
fn take_line(panel: Panel, line: &[u8], image: &mut [u8]) -> Panel
    ensures { standing result image.new ≡ next_taken line.now (standing panel image.old) }
{
    let at = panel.size_or_number as usize;
    match hexlines::take_line(line, at, image) {
        Ok(Record::Data(count)) => grow(panel, count, image),
        Ok(Record::End) => Panel {
            lines_or_detail: next_line(panel),
            stage: AT_END_RECORD,
            ..panel
        },
        Err(number) => stopped(panel, number),
    }
}

// One line of the text, with its line end. A panel that stays as it is is returned by its fields, as the others are: the compiler then
// keeps all of them in registers.
#[tactic(auto, using(crate::specs::LoadsLaws::line_under_way, crate::specs::LoadsLaws::line_too_many, crate::specs::LoadsLaws::line_none))]
pub fn line(panel: Panel, line: &[u8], image: &mut [u8]) -> Panel
    ensures { standing result image.new ≡ line_taken line.now (standing panel image.old) }
{
    match panel.stage {
        AT_LINE => take_line(panel, line, image),
        AT_END_RECORD => stop(panel, image),
        _ => Panel { ..panel },
    }
}

fn put_first(image: &mut [u8], first: u8)
    ensures { image.new ≡ slice_set image.old 0 first }
{
    if let Some(byte) = image.first_mut() {
        *byte = first;
    }
}

// The image of a whole text, judged.
fn judge(panel: Panel, image: &mut [u8]) -> Panel
    ensures { standing result image.new ≡ whole_judged (standing panel image.old) }
{
    put_first(image, panel.first);
    let size = (panel.size_or_number as usize).min(image.len());
    let answer = panel::keep_accepted(panel.level as u32, image, size);
    after_load(panel.level, answer)
}

// No further line: the text has ended.
#[tactic(auto, using(crate::specs::LoadsLaws::end_too_soon, crate::specs::LoadsLaws::end_whole, crate::specs::LoadsLaws::end_none))]
pub fn end(panel: Panel, image: &mut [u8]) -> Panel
    ensures { standing result image.new ≡ text_ended (standing panel image.old) }
{
    match panel.stage {
        AT_LINE => stop(panel, image),
        AT_END_RECORD => judge(panel, image),
        _ => panel,
    }
}
