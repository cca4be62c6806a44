// The body of a kind in an image: the caller's own memory, or numbers that say where it stands.
#![tactic(auto)]

ghost use Rattle.std.specs.Prelude.{◌≡◌};
ghost use Rattle.numbers.specs.Slices.{IsPart};
ghost use Rattle.image.specs.Find.{found, found_offset, is_there, Found};
ghost use Rattle.finder.specs.Places.{stated_place, placed, start_of, length_of};

use numbers::slices;

// The place for C.
mod for_c;

pub use for_c::PlaceForC;

// Where a body stands: its offset in the image, and its length.
#[derive(Clone, Copy)]
pub struct Place {
    pub offset: usize,
    pub length: usize,
}

// By what the contents lines state; the layout is not judged. For callers that have judged it, and look for several kinds.
#[tactic(auto, using(crate::specs::FinderLaws::loop_laws))]
pub fn stated(image: &[u8], kind: u32) -> Option<Place>
    ensures { result ≡ stated_place image.now kind }
{
    let count = contents::line_count(image);
    for i in 0..count {
        let line = contents::line_at(image, i);
        if u32::from(line.kind) == kind {
            return Some(Place {
                offset: usize::from(line.offset),
                length: usize::from(line.length),
            });
        }
    }
    None
}

// The part of the image at a place; the empty part at the image's start for no place. The layout is not judged: a part ends with the image.
#[tactic(auto, using(crate::specs::FinderLaws::part_there, crate::specs::FinderLaws::part_nowhere))]
pub fn part_at(image: &[u8], place: Option<Place>) -> &[u8]
    ensures { IsPart image.entry result (start_of place) (length_of place) }
{
    match place {
        Some(place) => slices::part(image, place.offset, place.length),
        None => slices::part(image, 0, 0),
    }
}

// The layout is judged first: nowhere in an ill-laid image.
#[tactic(auto, using(crate::specs::FinderLaws::place_good, crate::specs::FinderLaws::place_ill))]
pub fn place_of(image: &[u8], kind: u32) -> Option<Place>
    ensures { result ≡ placed (found_offset image.now kind) (found image.now kind) }
{
    layout::layout(image).ok()?;
    stated(image, kind)
}

// The body itself; the empty part at the image's start for an ill-laid image or an absent kind.
pub fn find(image: &[u8], kind: u32) -> &[u8]
    ensures { Found image.entry result kind }
{
    part_at(image, place_of(image, kind))
}

// Tells an absent kind from an empty body.
#[tactic(auto, using(crate::specs::FinderLaws::there_exactly))]
pub fn has(image: &[u8], kind: u32) -> bool
    ensures { result ≡ is_there (found image.now kind) }
{
    place_of(image, kind).is_some()
}
