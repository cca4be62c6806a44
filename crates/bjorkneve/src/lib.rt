// What C and Rust call, by way of `bjorkneve_c`: numbers and slices in, a struct of numbers out. The C header is printed with each
// function's comment, so these speak to its reader.
#![tactic(auto)]

ghost use Rattle.std.specs.Prelude.{◌≡◌, length};
ghost use Rattle.refusals.specs.ForC.{verdict_for_c, FillsForC};
ghost use Rattle.hextext.specs.Text.{read_text};
ghost use Rattle.hextext.specs.Written.{write_image};
ghost use Rattle.image.specs.Layout.{layout_verdict};
ghost use Rattle.image.specs.Find.{found, found_offset};
ghost use Rattle.finder.specs.Places.{placed};
ghost use Rattle.finder.specs.ForC.{place_for_c};
ghost use Rattle.builder.specs.Build.{build_image};
ghost use Rattle.builder.specs.Lines.{lines_given};
ghost use Rattle.reading.specs.ForC.{answer_for_c};
ghost use Rattle.panel.specs.Verdict.{verdict_of};
ghost use Rattle.panel.specs.Load.{load_text};
ghost use Rattle.panel.specs.Reading.{reading_of};
ghost use Rattle.lamp.specs.Panel.{standing};
ghost use Rattle.lamp.specs.Events.{powered_on, text_loaded, text_begun, line_taken, text_ended};
ghost use Rattle.lamp.specs.Questions.{reading_shown, gauge_told};
ghost use Rattle.lamp.specs.ForC.{status_for_c, gauge_for_c};

use finder::PlaceForC;
use lamp::{GaugeForC, Panel, StatusForC};
use reading::{AnswerForC, Counts};
use refusals::{FilledForC, VerdictForC};

// Reads a HEX text into the image. Refused 1 to 4, with the line in the text as the detail.
pub fn bjorkneve_read(text: &[u8], image: &mut [u8]) -> FilledForC
    ensures { FillsForC (read_text (length image.old) text.now) image.old result image.new }
{
    hexread::read(text, image).into()
}

// Writes an image as a HEX text, which takes BJORKNEVE_LONGEST_WRITTEN_TEXT bytes for the largest image. Refused 4 or 17.
pub fn bjorkneve_write(image: &[u8], text: &mut [u8]) -> FilledForC
    ensures { FillsForC (write_image (length text.old) image.now) text.old result text.new }
{
    hexwrite::write(image, text).into()
}

// Reads a HEX text into the image and judges it as a panel of this level does. Refused as by bjorkneve_read, then as by
// bjorkneve_verdict.
pub fn bjorkneve_load(text: &[u8], level: u32, image: &mut [u8]) -> FilledForC
    ensures { FillsForC (load_text level (length image.old) text.now) image.old result image.new }
{
    panel::load(text, level, image).into()
}

// Judges an image's layout, and not what its sections hold. Refused 5 to 8.
pub fn bjorkneve_layout(image: &[u8]) -> VerdictForC
    ensures { result ≡ verdict_for_c (layout_verdict image.now) }
{
    layout::layout(image).into()
}

// Judges an image as a panel of this level does. Refused 20, then 5 to 13, 15 or 16.
pub fn bjorkneve_verdict(image: &[u8], level: u32) -> VerdictForC
    ensures { result ≡ verdict_for_c (verdict_of level image.now) }
{
    panel::verdict(image, level).into()
}

// Finds the section of a kind. No kind is there in an image whose layout is refused. The body of kind 1 begins with the gauge's
// serial number, 4 bytes, the lowest first.
pub fn bjorkneve_find(image: &[u8], kind: u32) -> PlaceForC
    ensures { result ≡ place_for_c (placed (found_offset image.now kind) (found image.now kind)) }
{
    finder::place_of(image, kind).into()
}

// Builds an image of sections: section i has the kind kinds[i] and a body of lengths[i] bytes, and bodies are all of them joined.
// Refused 18, 19 or 17; 18 too where kinds and lengths are not equally many.
pub fn bjorkneve_build(
    kinds: &[u32],
    lengths: &[usize],
    bodies: &[u8],
    image: &mut [u8],
) -> FilledForC
    ensures { FillsForC
        (build_image (length image.old) (lines_given kinds.now lengths.now) bodies.now)
        image.old result image.new }
{
    builder::build_from_numbers(kinds, lengths, bodies, image).into()
}

// Takes the reading of a panel of this level, by an image that is judged anew at each call. Refused as by bjorkneve_verdict, then 21
// to 26.
pub fn bjorkneve_reading(image: &[u8], level: u32, counts: Counts) -> AnswerForC
    ensures { result ≡ answer_for_c (reading_of level image.now counts) }
{
    panel::reading(image, level, counts).into()
}

// A panel of this level at power-on. Of the bytes in the image the first size are what was kept of an accepted image, and they are judged
// as a loaded image is; size is 0 where nothing was kept. Where they are refused, the image is all zeros and the panel has none.
pub fn bjorkneve_panel_power_on(level: u32, image: &mut [u8], size: usize) -> Panel
    ensures { standing result image.new ≡ powered_on level size image.old }
{
    lamp::power_on(level, image, size)
}

// Loads a whole text, as bjorkneve_load does.
pub fn bjorkneve_panel_load(panel: Panel, text: &[u8], image: &mut [u8]) -> Panel
    ensures { standing result image.new ≡ text_loaded text.now (standing panel image.old) }
{
    lamp::load(panel, text, image)
}

// Begins a load by lines: the image is all zeros from here on, and the lamp is not green before bjorkneve_panel_end accepts. Until then the
// image's first byte is kept in the panel, so that no call takes what stands in the image for an image.
pub fn bjorkneve_panel_begin(panel: Panel, image: &mut [u8]) -> Panel
    ensures { standing result image.new ≡ text_begun (standing panel image.old) }
{
    lamp::begin(panel, image)
}

// Takes one line of the text with its line end, LF or CR LF; the last line may lack it, and is then refused. After a fault the image is all
// zeros, and further lines change nothing. A line that can be good has at most BJORKNEVE_LONGEST_LINE bytes.
pub fn bjorkneve_panel_line(panel: Panel, line: &[u8], image: &mut [u8]) -> Panel
    ensures { standing result image.new ≡ line_taken line.now (standing panel image.old) }
{
    lamp::line(panel, line, image)
}

// Ends a load by lines: the image is judged, and the panel answers what bjorkneve_load answers of the whole text.
pub fn bjorkneve_panel_end(panel: Panel, image: &mut [u8]) -> Panel
    ensures { standing result image.new ≡ text_ended (standing panel image.old) }
{
    lamp::end(panel, image)
}

// How the panel's last load stands: the lamp, and what the load answered.
pub fn bjorkneve_panel_status(panel: Panel) -> StatusForC
    ensures { result ≡ status_for_c panel }
{
    StatusForC::from(panel)
}

// Takes a reading by the panel's image, which is judged anew at each call. Refused as by bjorkneve_reading; 5 where the lamp is not green,
// or 20.
pub fn bjorkneve_panel_reading(panel: Panel, image: &[u8], counts: Counts) -> AnswerForC
    ensures { result ≡ answer_for_c (reading_shown (standing panel image.now) counts) }
{
    lamp::reading(panel, image, counts).into()
}

// The gauge of the panel's image, which is judged anew. Refused as by bjorkneve_verdict; 5 where the lamp is not green, or 20.
pub fn bjorkneve_panel_gauge(panel: Panel, image: &[u8]) -> GaugeForC
    ensures { result ≡ gauge_for_c (gauge_told (standing panel image.now)) }
{
    lamp::gauge(panel, image).into()
}
