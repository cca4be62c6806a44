// The reading of an image: the verdict, and then what its bodies and the counts come to.
ghost use Rattle.std.specs.Prelude.{◌≡◌};
ghost use Rattle.panel.specs.Reading.{reading_of};

use crate::accepted::Accepted;
use reading::{Answer, Counts};

// The reading that a panel of this level takes by an image, or its first refusal.
#[tactic(auto, unfolding(crate::specs::Reading::sections_reading, crate::specs::Reading::reading_of))]
pub fn reading(image: &[u8], level: u32, counts: Counts) -> Answer
    ensures { result ≡ reading_of level image.now counts }
{
    let accepted = Accepted::judged(image, level)?;
    reading::measured(
        counts,
        accepted.identity(),
        accepted.pressure_set(),
        accepted.temperature_set(),
        accepted.trim(),
    )
}
