// A place as C gets it.
ghost use Rattle.std.specs.Prelude.{◌≡◌};
ghost use Rattle.finder.specs.ForC.{place_for_c};

use crate::Place;

// Whether the kind is there, and where its body stands: its offset in the image and its length, 0 and 0 where it is not there.
#[repr(C)]
#[derive(Clone, Copy)]
pub struct PlaceForC {
    pub there: bool,
    pub offset: usize,
    pub length: usize,
}

impl From<Option<Place>> for PlaceForC {
    ghost from_gives = { λ place for_c. for_c ≡ place_for_c place };

    fn from(place: Option<Place>) -> PlaceForC {
        match place {
            Some(place) => PlaceForC {
                there: true,
                offset: place.offset,
                length: place.length,
            },
            None => PlaceForC {
                there: false,
                offset: 0,
                length: 0,
            },
        }
    }
}
