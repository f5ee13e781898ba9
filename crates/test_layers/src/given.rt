//! Numbers that were given, in the order in which each was given first. Which number comes next is not said, so a row names a number by its
//! place in this order, from 1: a number that is given again has the place that it had before.
use crate::pages::Page;
use crate::words::number_behind;

/// How many numbers the rows of one `new` can name.
const MOST: usize = 24;

/// Numbers in the order in which each was given first, so many.
#[derive(Clone, Copy)]
pub(crate) struct Given {
    known: [u32; MOST],
    count: usize,
}

/// No number was given.
pub(crate) const NOTHING_GIVEN: Given = Given {
    known: [0; MOST],
    count: 0,
};

impl Given {
    /// The number at a place, from 1.
    fn number(&self, place: u32) -> Option<u32> {
        let before = (place as usize).wrapping_sub(1);
        if before >= self.count {
            return None;
        }
        match self.known.get(before) {
            Some(known) => Some(*known),
            None => None,
        }
    }

    /// The number that a word such as `c2` names: that at a place.
    pub(crate) fn named(&self, word: &str, sign: &str) -> Option<u32> {
        match number_behind(word, sign) {
            Some(place) => self.number(place),
            None => None,
        }
    }

    /// The place of a number that was given, from 1; 0 where it wasn't.
    pub(crate) fn place(&self, number: u32) -> usize {
        let mut place = 0usize;
        for known in self.known {
            place = place.saturating_add(1);
            if known == number && place <= self.count {
                return place;
            }
        }
        0
    }

    /// Tells the numbers that were given.
    pub(crate) fn show(&self, page: &mut Page) {
        let mut place = 0usize;
        for known in self.known {
            if place < self.count {
                page.numbered(" ", u64::from(known));
            }
            place = place.saturating_add(1);
        }
    }

    /// A number is given.
    pub(crate) fn give(&mut self, number: u32) {
        if self.place(number) == 0 {
            if let Some(free) = self.known.get_mut(self.count) {
                *free = number;
                self.count = self.count.saturating_add(1);
            }
        }
    }
}
