//! Where among the names those of frames were found last.

// How many places are kept: one for each low octet of an APPID.
const PLACES: usize = 256;

/// The place among the names of the one that was found last, by the low octet of its APPID. It is a guess: whether the name there is
/// the one that is looked for is compared.
#[derive(Drop)]
pub struct Guesses {
    places: [u16; PLACES],
}

impl Guesses {
    // Each guess is the first name.
    pub(crate) fn new() -> Guesses {
        Guesses {
            places: [0; PLACES],
        }
    }

    // Where the name of a block with this APPID may stand.
    #[inline(always)]
    pub(crate) fn place(&self, app_id: u16) -> usize {
        usize::from(self.places[usize::from(app_id % 256)])
    }

    // Takes note of where a name with this APPID stands. No guess is made of places from 65,536 on.
    pub(crate) fn note(&mut self, app_id: u16, place: usize) {
        if let Ok(place) = u16::try_from(place) {
            self.places[usize::from(app_id % 256)] = place;
        }
    }
}
