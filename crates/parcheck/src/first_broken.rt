//! Which piece is known to be broken, for the jobs of those after it, which may stop then. It's a hint, and nothing is concluded from it: each job says
//! how far it has come, and whatever would count is walked over in the end (`in_order`).
use closure::first_fault::Finding;
use std::sync::atomic::{AtomicUsize, Ordering};

/// The first piece that is known to be broken, which all jobs share.
#[derive(Drop)]
pub(crate) struct FirstBroken {
    /// The place of its first entry; the last number of all where none is known.
    place: AtomicUsize,
}

impl FirstBroken {
    /// None is known.
    pub(crate) fn new() -> FirstBroken {
        FirstBroken {
            place: AtomicUsize::new(usize::MAX),
        }
    }

    /// Whether it begins at a place or before it.
    pub(crate) fn is_by(&self, place: usize) -> bool {
        self.place.load(Ordering::SeqCst) <= place
    }

    /// Takes up what is found of the piece that begins at a place.
    pub(crate) fn take_up(&self, place: usize, found: &Finding) {
        if let Finding::Broken(_) = *found {
            let _ = self
                .place
                .fetch_update(Ordering::SeqCst, Ordering::SeqCst, |known| {
                    if place < known { Some(place) } else { None }
                });
        }
    }
}
