// How anything is refused, and what a lent buffer then holds.
#![tactic(auto)]

ghost use Rattle.std.specs.Prelude.{◌≡◌};
ghost use Rattle.refusals.specs.Refusals.{refusal, Settled};
ghost use Rattle.refusals.specs.FieldsVerdict.{refused_at};

mod for_c;
mod reason;

pub use for_c::{FilledForC, VerdictForC};
pub use reason::Reason;

// A number of document 01's table and its detail, which is wide enough for the line of any text.
#[derive(Clone, Copy)]
pub struct Refusal {
    pub number: u32,
    pub detail: u64,
}

// What a check answers.
pub type Verdict = Result<(), Refusal>;

// What the filling of a lent buffer answers: how many bytes from its start are the result, or why there is none.
pub type Filled = Result<usize, Refusal>;

pub fn refused(number: u32, detail: u64) -> Verdict
    ensures { result ≡ Err (refusal number detail) }
{
    Err(Refusal { number, detail })
}

// The refusal of a body whose first wrong field stands at `place`. Document 01 gives it the detail 0; the place is handed on for a later
// version of the rules, in which it is the detail.
pub fn refused_at(number: u32, place: usize) -> Verdict
    ensures { result ≡ refused_at number place }
{
    refused(number, 0)
}

// The answer passed on, with zeros after the result, and nothing but zeros where there is none.
pub fn settled(answer: Filled, buffer: &mut [u8]) -> Filled
    ensures { Settled answer buffer.old result buffer.new }
{
    // a case for each, so that what settles twice clears once
    match answer {
        Ok(length) => numbers::slices::clear_from(buffer, length),
        Err(_) => numbers::slices::clear_from(buffer, 0),
    }
    answer
}
