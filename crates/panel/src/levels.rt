// The levels of panels, and the kinds that each knows or may pass over.
ghost use Rattle.std.specs.Prelude.{◌≡◌, false, Err, MatchOption, MatchResult};
ghost use Rattle.panel.specs.Levels.{knows, may_pass};
ghost use Rattle.panel.specs.Verdict.{level_verdict};
ghost use Rattle.panel.specs.Kinds.{level_number, IsLevel, IsKnown};

use refusals::{Reason, Refusal};

// A kind that panels of some level know.
#[derive(Clone, Copy)]
pub enum Kind {
    Identity,
    PressureSet,
    TemperatureSet,
    Trim,
    Note,
}

#[derive(Clone, Copy)]
pub enum Level {
    One,
    Two,
}

impl Level {
    // Refusal 20.
    pub(crate) fn of(number: u32) -> Result<Level, Refusal>
        ensures { MatchResult result (λ level. IsLevel level number) (λ refusal. level_verdict number ≡ Err refusal) }
    {
        match number {
            1 => Ok(Level::One),
            2 => Ok(Level::Two),
            _ => Reason::NoSuchLevel.refused(0),
        }
    }

    // The kind of this number, where a panel of this level knows it.
    #[tactic(auto, using(crate::specs::LevelsLaws::kinds_known))]
    pub(crate) fn known(self, number: u32) -> Option<Kind>
        ensures { MatchOption result (knows (level_number self) number ≡ false) (λ kind. IsKnown (level_number self) number kind) }
    {
        match (self, number) {
            (_, 1) => Some(Kind::Identity),
            (_, 2) => Some(Kind::PressureSet),
            (_, 3) => Some(Kind::TemperatureSet),
            (Level::Two, 4) => Some(Kind::Trim),
            (Level::Two, 129) => Some(Kind::Note),
            _ => None,
        }
    }

    pub(crate) fn may_pass(self, number: u32) -> bool
        ensures { result ≡ may_pass (level_number self) number }
    {
        self.known(number).is_some() || limits::LOWEST_PASSED_OVER <= number
    }
}
