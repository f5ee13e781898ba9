//! A queue of things, and the shares of those that put things into it and take them out.
ghost use Rattle.std.specs.Prelude.{◌≡◌, ◌+◌, ◌-◌, ◌<◌, ◌++◌, [], ◌∷◌, IfOk, IfNone, IfSome, List, ℕ, length};
ghost use Rattle.handover.specs.Hands.{Holds, Stand, all_parts, hand, times};
ghost use Rattle.handover.specs.Queues.{IsSameShare, IsShareOf, hand_of, room_of};

use crate::hand::{All, Begins, Cut, Fair, Hand, NumberedItem, Puts, Takes};
use crossbeam_queue::{Pass, RuledArrayQueue};
use std::alloc::{AllocError, Global};
use std::sync::Wait;
use std::thread;

/// A queue of things with numbers, for any number of threads.
#[derive(Drop)]
pub struct Queue<T> {
    pub(crate) ring: RuledArrayQueue<NumberedItem<T>, Hand, Fair>,
}

/// The right to put things into a queue and to take them out, with what was put and taken by it. Each thread has its own.
#[derive(Drop)]
pub struct Share<T> {
    pub(crate) pass: Pass<NumberedItem<T>, Hand>,
}

impl<T: Drop> Queue<T> {
    /// An empty queue with room for so many things, at least 1, and its first share, which has all parts of the right to know the whole, 1024 of them.
    pub fn open(alloc: Global, room: usize) -> Result<(Queue<T>, Share<T>), AllocError>
        requires { 0 < room }
        ensures { IfOk result (λ r. (room_of r.0 ≡ room) × IsShareOf r.0 r.1 × (hand_of r.1 ≡ hand all_parts [] [] [])) }
    {
        let (ring, pass) = RuledArrayQueue::ruled(alloc, room)?;
        Ok((Queue { ring }, Share { pass }))
    }

    /// A share more, with one part of this one's right, that put and took nothing.
    pub fn another(&self, share: &mut Share<T>) -> Share<T>
        requires of { IsShareOf self.now share.old }
        requires parts { 1 < (hand_of share.old).parts }
        ensures of { IsSameShare share.old share.new × IsShareOf self.now result }
        ensures left { hand_of share.new ≡ hand ((hand_of share.old).parts - 1) (hand_of share.old).begun (hand_of share.old).put (hand_of share.old).taken }
        ensures right { hand_of result ≡ hand 1 [] [] [] }
    {
        Share {
            pass: self.ring.another::<Cut>(&mut share.pass),
        }
    }

    /// Takes back a share, with all that was put and taken by it.
    pub fn absorb(&self, share: &mut Share<T>, other: Share<T>)
        requires of { IsShareOf self.now share.old × IsShareOf self.now other }
        ensures of { IsSameShare share.old share.new }
        ensures both { hand_of share.new ≡ hand ((hand_of share.old).parts + (hand_of other).parts) ((hand_of share.old).begun ++ (hand_of other).begun) ((hand_of share.old).put ++ (hand_of other).put) ((hand_of share.old).taken ++ (hand_of other).taken) }
    {
        let Share { pass } = other;
        self.ring.absorb::<Cut>(&mut share.pass, pass);
    }

    /// Puts a thing in for the first time: its number is a new one, and there is room for it.
    pub fn begin<R: Wait>(&self, rt: &R, share: &mut Share<T>, thing: NumberedItem<T>)
        requires of { IsShareOf self.now share.old }
        requires whole { (hand_of share.old).parts ≡ all_parts }
        requires new { times thing.number (hand_of share.old).begun ≡ 0 }
        requires room { length (hand_of share.old).put < room_of self.now + length (hand_of share.old).taken }
        ensures of { IsSameShare share.old share.new }
        ensures begun { hand_of share.new ≡ hand all_parts ((hand_of share.old).begun ++ thing.number ∷ []) ((hand_of share.old).put ++ thing.number ∷ []) (hand_of share.old).taken }
    {
        let Ok(()) = self.ring.push_as::<Begins, R>(rt, &mut share.pass, thing) else {
            unreachable!()
        };
    }

    /// Puts a thing back that the share holds. It waits while the queue is full, which it never is where no more things were begun than there is room for.
    pub fn put<R: Wait>(&self, rt: &R, share: &mut Share<T>, thing: NumberedItem<T>)
        requires of { IsShareOf self.now share.old }
        requires part { 0 < (hand_of share.old).parts }
        requires held { Holds (hand_of share.old) thing.number }
        ensures of { IsSameShare share.old share.new }
        ensures put { hand_of share.new ≡ hand (hand_of share.old).parts (hand_of share.old).begun ((hand_of share.old).put ++ thing.number ∷ []) (hand_of share.old).taken }
    {
        let mut thing = thing;
        for _ in rt.forever() {
            match self.ring.push_as::<Puts, R>(rt, &mut share.pass, thing) {
                Ok(()) => return,
                Err(back) => {
                    thing = back;
                    thread::yield_now();
                }
            }
        }
    }

    /// Takes a thing out; nothing where none stands. A share with all parts then knows that all that was put was taken.
    pub fn take<R: Wait>(&self, rt: &R, share: &mut Share<T>) -> Option<NumberedItem<T>>
        requires of { IsShareOf self.now share.old }
        requires part { 0 < (hand_of share.old).parts }
        ensures of { IsSameShare share.old share.new }
        ensures none { IfNone result (hand_of share.new ≡ hand_of share.old) }
        ensures empty { IfNone result ((hand_of share.old).parts ≡ all_parts → Stand (hand_of share.old) []) }
        ensures taken { IfSome result (λ thing. hand_of share.new ≡ hand (hand_of share.old).parts (hand_of share.old).begun (hand_of share.old).put ((hand_of share.old).taken ++ thing.number ∷ [])) }
    {
        self.ring.pop_as::<Takes, R>(rt, &mut share.pass)
    }

    /// What the rule says, for a share with all parts: for each number, as many were put in as were taken out, and one more exactly where one stands in the
    /// queue at one moment of the call.
    pub fn look(&self, share: &mut Share<T>)
        requires of { IsShareOf self.now share.old }
        requires whole { (hand_of share.old).parts ≡ all_parts }
        ensures of { IsSameShare share.old share.new }
        ensures same { hand_of share.new ≡ hand_of share.old }
        ensures stand { (standing : List ℕ) × Stand (hand_of share.old) standing }
    {
        self.ring.learn_as::<All>(&mut share.pass);
    }
}
