//! What a gateway keeps of the requests of one call.
ghost use Rattle.std.specs.Prelude.{◌≡◌, ℕ, Some, None, option_map};
ghost use Rattle.mg_model.specs.Delivery.{offer, fresh, with_kept, new_link};

use mg_names::identifiers::Assoc;
use std::marker::Model;

/// What a link says of a request that arrives.
#[derive(Drop)]
pub enum Offer<'a, R> {
    /// A new number: the request is to be executed.
    Fresh,
    /// The last number again: what was kept of it is to be sent once more.
    Kept(&'a R),
    /// A lower number, another association, or the number 0, which no request has.
    Discard,
}

/// A link: its association, and the number of the last request that was executed with what is kept of it.
#[derive(Drop)]
pub struct Link<R> {
    association: Assoc,
    last: Option<(u32, R)>,
}

impl<R> Model for Link<R> {
    ghost use Rattle.mg_model.specs.Delivery as model;

    ghost Value = { model.Link R };

    ghost view = { λ l. record { association = l.association.0; last = l.last } };
}

impl<R: Drop> Link<R> {
    ghost use Rattle.delivery.specs.Offers.{offered};

    /// The link of a new association: no request was executed.
    pub fn new(association: Assoc) -> Link<R>
        ensures { result ≡ new_link association.0 }
    {
        Link {
            association,
            last: None,
        }
    }

    /// What is to be done with a request of this association and number.
    pub fn offer(&self, association: Assoc, id: u32) -> Offer<'_, R>
        ensures { offered result ≡ offer self.now association.0 id }
    {
        if association != self.association {
            return Offer::Discard;
        }
        let Some((last, kept)) = &self.last else {
            return if id == 0 {
                Offer::Discard
            } else {
                Offer::Fresh
            };
        };
        if id > *last {
            Offer::Fresh
        } else if id == *last {
            Offer::Kept(kept)
        } else {
            Offer::Discard
        }
    }

    /// Keeps what is to be sent where the request of this number arrives again: it was new, and was executed.
    pub fn keep(&mut self, id: u32, kept: R)
        requires { offer self.old self.old.association id ≡ fresh }
        ensures { self.new ≡ with_kept self.old id kept }
    {
        self.last = Some((id, kept));
    }

    /// A new association begins: nothing is kept.
    pub fn restart(&mut self, association: Assoc)
        ensures { self.new ≡ new_link association.0 }
    {
        self.association = association;
        self.last = None;
    }

    /// The association.
    pub fn association(&self) -> Assoc
        ensures { result.0 ≡ self.now.association }
    {
        self.association
    }

    /// The number of the last request that was executed.
    pub fn last(&self) -> Option<u32>
        ensures { result ≡ option_map (λ last. last.0) self.now.last }
    {
        match &self.last {
            Some((last, _)) => Some(*last),
            None => None,
        }
    }
}
