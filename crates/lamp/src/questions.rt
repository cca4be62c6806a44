// What a panel is asked: whether its lamp is green, how its last load stands, a reading, the gauge.
ghost use Rattle.std.specs.Prelude.{◌≡◌};
ghost use Rattle.lamp.specs.Panel.{is_lit, size_held, standing};
ghost use Rattle.lamp.specs.Questions.{load_state, reading_shown, gauge_told};

use crate::Panel;
use crate::loads::{AT_END_RECORD, AT_IMAGE, AT_LINE};
use panel::Identified;
use reading::{Answer, Counts};
use refusals::{Reason, Refusal};

// The number of a panel that its caller made of zeros.
const NOT_AN_IMAGE: u32 = Reason::NotAnImage as u32;

// Whether the lamp is green: the last load that began has ended with an accepted image.
pub fn is_lit(panel: Panel) -> bool
    ensures { result ≡ is_lit panel }
{
    panel.stage == AT_IMAGE
}

// How the last load stands.
#[derive(Clone, Copy)]
pub enum LoadState {
    // the text has not ended
    UnderWay,
    // an image of so many bytes
    Accepted(usize),
    Refused(Refusal),
}

// A panel that its caller made of zeros has no image, and says so.
#[tactic(auto, using(crate::specs::QuestionsLaws::state_accepted, crate::specs::QuestionsLaws::state_at_line, crate::specs::QuestionsLaws::state_at_end, crate::specs::QuestionsLaws::state_made_up, crate::specs::QuestionsLaws::state_refused))]
pub fn load_state(panel: Panel) -> LoadState
    ensures { result ≡ load_state panel }
{
    match panel.stage {
        AT_IMAGE => LoadState::Accepted(panel.size_or_number as usize),
        AT_LINE | AT_END_RECORD => LoadState::UnderWay,
        _ if panel.size_or_number == 0 => LoadState::Refused(Refusal {
            number: NOT_AN_IMAGE,
            detail: 0,
        }),
        _ => LoadState::Refused(Refusal {
            number: panel.size_or_number,
            detail: panel.lines_or_detail,
        }),
    }
}

// How many bytes of the buffer are the panel's image.
fn size_held(panel: Panel) -> usize
    ensures { result ≡ size_held panel }
{
    if is_lit(panel) {
        panel.size_or_number as usize
    } else {
        0
    }
}

// A reading by the image that the panel holds, which is judged anew.
pub fn reading(panel: Panel, image: &[u8], counts: Counts) -> Answer
    ensures { result ≡ reading_shown (standing panel image.now) counts }
{
    let held = numbers::slices::part(image, 0, size_held(panel));
    panel::reading(held, u32::from(panel.level), counts)
}

// The gauge whose image the panel holds, by that image, which is judged anew.
pub fn gauge(panel: Panel, image: &[u8]) -> Identified
    ensures { result ≡ gauge_told (standing panel image.now) }
{
    let held = numbers::slices::part(image, 0, size_held(panel));
    panel::identity(held, u32::from(panel.level))
}
