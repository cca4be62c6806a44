// What C calls: each function of `bjorkneve` under its own name, with the same clauses. A crate is a library or a static library, and not
// both; this is the static library. `tools/header` takes names and types from here, and what each function answers from `bjorkneve`.
#![tactic(auto)]

ghost use Rattle.std.specs.Prelude.{◌≡◌, length};
ghost use Rattle.refusals.specs.ForC.{verdict_for_c, FillsForC};
ghost use Rattle.hextext.specs.Text.{read_text};
ghost use Rattle.hextext.specs.Written.{write_image};
ghost use Rattle.image.specs.Layout.{layout_verdict};
ghost use Rattle.image.specs.Find.{found, found_offset};
ghost use Rattle.finder.specs.Places.{placed};
ghost use Rattle.finder.specs.ForC.{place_for_c};
ghost use Rattle.builder.specs.Build.{build_image};
ghost use Rattle.builder.specs.Lines.{lines_given};
ghost use Rattle.reading.specs.ForC.{answer_for_c};
ghost use Rattle.panel.specs.Verdict.{verdict_of};
ghost use Rattle.panel.specs.Load.{load_text};
ghost use Rattle.panel.specs.Reading.{reading_of};
ghost use Rattle.lamp.specs.Panel.{standing};
ghost use Rattle.lamp.specs.Events.{powered_on, text_loaded, text_begun, line_taken, text_ended};
ghost use Rattle.lamp.specs.Questions.{reading_shown, gauge_told};
ghost use Rattle.lamp.specs.ForC.{status_for_c, gauge_for_c};

use finder::PlaceForC;
use lamp::{GaugeForC, Panel, StatusForC};
use reading::{AnswerForC, Counts};
use refusals::{FilledForC, VerdictForC};

#[unsafe(no_mangle)]
pub extern "C" fn bjorkneve_read(text: &[u8], image: &mut [u8]) -> FilledForC
    ensures { FillsForC (read_text (length image.old) text.now) image.old result image.new }
{
    bjorkneve::bjorkneve_read(text, image)
}

#[unsafe(no_mangle)]
pub extern "C" fn bjorkneve_write(image: &[u8], text: &mut [u8]) -> FilledForC
    ensures { FillsForC (write_image (length text.old) image.now) text.old result text.new }
{
    bjorkneve::bjorkneve_write(image, text)
}

#[unsafe(no_mangle)]
pub extern "C" fn bjorkneve_load(text: &[u8], level: u32, image: &mut [u8]) -> FilledForC
    ensures { FillsForC (load_text level (length image.old) text.now) image.old result image.new }
{
    bjorkneve::bjorkneve_load(text, level, image)
}

#[unsafe(no_mangle)]
pub extern "C" fn bjorkneve_layout(image: &[u8]) -> VerdictForC
    ensures { result ≡ verdict_for_c (layout_verdict image.now) }
{
    bjorkneve::bjorkneve_layout(image)
}

#[unsafe(no_mangle)]
pub extern "C" fn bjorkneve_verdict(image: &[u8], level: u32) -> VerdictForC
    ensures { result ≡ verdict_for_c (verdict_of level image.now) }
{
    bjorkneve::bjorkneve_verdict(image, level)
}

#[unsafe(no_mangle)]
pub extern "C" fn bjorkneve_find(image: &[u8], kind: u32) -> PlaceForC
    ensures { result ≡ place_for_c (placed (found_offset image.now kind) (found image.now kind)) }
{
    bjorkneve::bjorkneve_find(image, kind)
}

#[unsafe(no_mangle)]
pub extern "C" fn bjorkneve_build(
    kinds: &[u32],
    lengths: &[usize],
    bodies: &[u8],
    image: &mut [u8],
) -> FilledForC
    ensures { FillsForC
        (build_image (length image.old) (lines_given kinds.now lengths.now) bodies.now)
        image.old result image.new }
{
    bjorkneve::bjorkneve_build(kinds, lengths, bodies, image)
}

#[unsafe(no_mangle)]
pub extern "C" fn bjorkneve_reading(image: &[u8], level: u32, counts: Counts) -> AnswerForC
    ensures { result ≡ answer_for_c (reading_of level image.now counts) }
{
    bjorkneve::bjorkneve_reading(image, level, counts)
}

#[unsafe(no_mangle)]
pub extern "C" fn bjorkneve_panel_power_on(level: u32, image: &mut [u8], size: usize) -> Panel
    ensures { standing result image.new ≡ powered_on level size image.old }
{
    bjorkneve::bjorkneve_panel_power_on(level, image, size)
}

#[unsafe(no_mangle)]
pub extern "C" fn bjorkneve_panel_load(panel: Panel, text: &[u8], image: &mut [u8]) -> Panel
    ensures { standing result image.new ≡ text_loaded text.now (standing panel image.old) }
{
    bjorkneve::bjorkneve_panel_load(panel, text, image)
}

#[unsafe(no_mangle)]
pub extern "C" fn bjorkneve_panel_begin(panel: Panel, image: &mut [u8]) -> Panel
    ensures { standing result image.new ≡ text_begun (standing panel image.old) }
{
    bjorkneve::bjorkneve_panel_begin(panel, image)
}

#[unsafe(no_mangle)]
pub extern "C" fn bjorkneve_panel_line(panel: Panel, line: &[u8], image: &mut [u8]) -> Panel
    ensures { standing result image.new ≡ line_taken line.now (standing panel image.old) }
{
    bjorkneve::bjorkneve_panel_line(panel, line, image)
}

#[unsafe(no_mangle)]
pub extern "C" fn bjorkneve_panel_end(panel: Panel, image: &mut [u8]) -> Panel
    ensures { standing result image.new ≡ text_ended (standing panel image.old) }
{
    bjorkneve::bjorkneve_panel_end(panel, image)
}

#[unsafe(no_mangle)]
pub extern "C" fn bjorkneve_panel_status(panel: Panel) -> StatusForC
    ensures { result ≡ status_for_c panel }
{
    bjorkneve::bjorkneve_panel_status(panel)
}

#[unsafe(no_mangle)]
pub extern "C" fn bjorkneve_panel_reading(panel: Panel, image: &[u8], counts: Counts) -> AnswerForC
    ensures { result ≡ answer_for_c (reading_shown (standing panel image.now) counts) }
{
    bjorkneve::bjorkneve_panel_reading(panel, image, counts)
}

#[unsafe(no_mangle)]
pub extern "C" fn bjorkneve_panel_gauge(panel: Panel, image: &[u8]) -> GaugeForC
    ensures { result ≡ gauge_for_c (gauge_told (standing panel image.now)) }
{
    bjorkneve::bjorkneve_panel_gauge(panel, image)
}
