// The gauge that an image is of.
ghost use Rattle.std.specs.Prelude.{◌≡◌};
ghost use Rattle.panel.specs.Identified.{identified_by};

use crate::accepted::Accepted;
use bodies::Identity;
use refusals::Refusal;

// What an accepted image's first section says, or why the image is not accepted.
pub type Identified = Result<Identity, Refusal>;

// The gauge of an image, if a panel of this level accepts it.
#[tactic(auto, unfolding(crate::specs::Identified::identified_by))]
pub fn identity(image: &[u8], level: u32) -> Identified
    ensures { result ≡ identified_by level image.now }
{
    let accepted = Accepted::judged(image, level)?;
    Ok(accepted.identity())
}
