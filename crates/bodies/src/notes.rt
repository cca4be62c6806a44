// Kind 129, note: its fields judged in layout order.
ghost use Rattle.std.specs.Prelude.{◌≡◌};
ghost use Rattle.refusals.specs.FieldsVerdict.{fields_verdict};
ghost use Rattle.bodies.specs.Note.{character_fields, note_verdict};

use limits::{HIGHEST_CHARACTER, LONGEST_NOTE, LOWEST_CHARACTER};
use refusals::{Reason, Verdict};
use whole::outside;

pub fn note_verdict(body: &[u8]) -> Verdict
    ensures { result ≡ note_verdict body.now }
{
    if outside(1, body.len() as u64, LONGEST_NOTE) {
        return Reason::Note.refused_at(body.len());
    }
    characters_verdict(body)
}

fn characters_verdict(body: &[u8]) -> Verdict
    ensures { result ≡ fields_verdict 16 (character_fields body.now) }
{
    for (i, character) in body.iter().enumerate() {
        // widened by `as`: through a call of `u64::from` no proof was found
        if outside(LOWEST_CHARACTER, *character as u64, HIGHEST_CHARACTER) {
            return Reason::Note.refused_at(i);
        }
    }
    Ok(())
}
