//! Where the entries of attached pages probably stand, so that loads and stores need not look them up.
use shm_attach::MAX_ATTACHMENTS;
use shm_place::Sites;

/// For each attachment number, the place among the stored entries of the first page that the site manages of its segment, when it was
/// attached last. A site manages one page in as many as there are sites; the entries of the further ones follow in order, unless some were
/// stored before. No proof rests on it: whoever uses it compares the page, and looks up an entry that is elsewhere.
#[derive(Clone, Copy)]
pub(crate) struct FirstPlaces {
    /// 65,536 over the number of sites, and one: what a multiplication by it has above 16 bits is the index over that number.
    share: u32,
    places: [u32; MAX_ATTACHMENTS],
}

impl FirstPlaces {
    /// No place is noted yet.
    pub(crate) fn unknown(sites: Sites) -> FirstPlaces {
        FirstPlaces {
            share: 65_536 / sites.count() + 1,
            places: [0; MAX_ATTACHMENTS],
        }
    }

    /// Notes the place of the entry of the first page that the site manages of the segment attached at the number.
    pub(crate) fn note(&mut self, number: Option<u32>, place: Option<usize>) {
        let (Some(number), Some(place)) = (number, place) else {
            return;
        };
        let Ok(place) = u32::try_from(place) else {
            return;
        };
        if let Some(first) = self.places.get_mut(number as usize) {
            *first = place;
        }
    }

    /// Where the entry of the page with this index probably stands.
    pub(crate) fn likely(&self, number: u32, index: u32) -> usize {
        match self.places.get(number as usize) {
            Some(first) => *first as usize + (index.wrapping_mul(self.share) >> 16) as usize,
            None => index as usize,
        }
    }
}
