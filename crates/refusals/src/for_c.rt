// Answers as C gets them: number 0 where nothing is refused, and after a refusal every value 0.
ghost use Rattle.std.specs.Prelude.{◌≡◌};
ghost use Rattle.refusals.specs.ForC.{verdict_for_c, filled_for_c};

use crate::{Filled, Verdict};

// Number 0 for yes; else why not, by the refusal's number and detail.
#[repr(C)]
#[derive(Clone, Copy)]
pub struct VerdictForC {
    pub number: u32,
    pub detail: u64,
}

// Number 0, and how many bytes of the buffer are the result; else the refusal's number and detail, and length 0.
#[repr(C)]
#[derive(Clone, Copy)]
pub struct FilledForC {
    pub number: u32,
    pub detail: u64,
    pub length: usize,
}

impl From<Verdict> for VerdictForC {
    ghost from_gives = { λ verdict for_c. for_c ≡ verdict_for_c verdict };

    fn from(verdict: Verdict) -> VerdictForC {
        match verdict {
            Ok(()) => VerdictForC {
                number: 0,
                detail: 0,
            },
            Err(why) => VerdictForC {
                number: why.number,
                detail: why.detail,
            },
        }
    }
}

impl From<Filled> for FilledForC {
    ghost from_gives = { λ filled for_c. for_c ≡ filled_for_c filled };

    fn from(filled: Filled) -> FilledForC {
        match filled {
            Ok(length) => FilledForC {
                number: 0,
                detail: 0,
                length,
            },
            Err(refusal) => FilledForC {
                number: refusal.number,
                detail: refusal.detail,
                length: 0,
            },
        }
    }
}
