//! Identifiers with what they identify.
ghost use Rattle.std.specs.Prelude.{◌≡◌, ℕ, ◌+◌, ◌<◌, ◌≤◌, vec_capacity, ◌==◌, true, false, Some, None, Err, IsTrue, IfOk, OnOk, OnErr, IfSome, ◌↔◌, is_some, option_copied, if◌then◌else◌};
ghost use Rattle.mg_model.specs.Items.{given, Lists};
ghost use Rattle.slab.specs.Slab.{HasRoomFor, slab_len};
ghost use Rattle.identifiers.specs.declared.fault.CreateFault.TheVariants.{Full};
ghost use Rattle.identifiers.specs.Stock.{at, is_used, is_held, is_freed, slot_at, next_of, replaced, IsGiven, IsCopy, IsUsedUp};
ghost use Rattle.identifiers.specs.Count.{IsCount};

use crate::class::Class;
use crate::fault::CreateFault;
use slab::Slab;
use std::alloc::{AllocError, Global};
use std::marker::Model;
use std::mem;

/// Values, each under its number, which is the key of a slab. The place of a value that was freed is kept, without a value, until `settle`.
/// There is room for the list of the freed ones from the start, so that neither `free` nor `settle` takes memory.
#[derive(Drop)]
pub struct Identifiers<T> {
    class: Class,
    slots: Slab<Option<T>>,
    freed: Vec<usize>,
}

impl<T> Model for Identifiers<T> {
    ghost use Rattle.std.specs.Prelude.{vec_capacity};
    ghost use Rattle.slab.specs.Slab.{slab_len};
    ghost use Rattle.identifiers.specs.Stock.{Stock, stock_code, IsSound};

    ghost Value = { Stock T };

    ghost coded = { stock_code T.code };

    ghost view = { λ i. record { slots = i.slots.slots; vacant = i.slots.vacant_key; class = i.class } };

    ghost invariant = { λ i. IsSound i.slots.slots i.freed.items (vec_capacity i.freed) i.class };
}

// Whether what had this key was freed.
fn is_freed_at<T>(slots: &Slab<Option<T>>, key: usize) -> bool
    ensures { result ≡ is_freed (slot_at slots.now.slots key) }
{
    matches!(slots.get(key), Some(None))
}

// Makes room for one more value, and in the list of the freed keys for as many as there is room for values.
fn make_room<S>(slots: &mut Slab<S>, freed: &mut Vec<usize>) -> Result<(), AllocError>
    ensures slots { slots.new.slots ≡ slots.old.slots }
    ensures vacant { slots.new.vacant_key ≡ slots.old.vacant_key }
    ensures freed { freed.new.items ≡ freed.old.items }
    ensures kept { vec_capacity freed.old ≤ vec_capacity freed.new }
    ensures room { OnOk result (HasRoomFor slots.new 1) }
    ensures freed_room { OnOk result (slab_len slots.new + 1 ≤ vec_capacity freed.new) }
{
    slots.reserve(1)?;
    let places = slots.capacity();
    freed.reserve(places.saturating_sub(freed.len()))
}

impl<T: Drop> Identifiers<T> {
    /// No value. The numbers are those from 1 to `last` that leave `first` where they are divided by `stride`.
    pub fn new(alloc: Global, first: u32, stride: u32, last: u32) -> Identifiers<T>
        requires { first < stride }
        ensures class { result.class ≡ record { first = first; stride = stride; last = last } }
        ensures values { (n : ℕ) → at result n ≡ None }
        ensures used { (n : ℕ) → is_used result n ≡ false }
    {
        Identifiers {
            class: Class {
                first,
                stride,
                last,
            },
            slots: Slab::new(alloc),
            freed: Vec::new(alloc),
        }
    }

    /// The value under a number; `None` where there is none.
    pub fn get(&self, number: u32) -> Option<&T>
        ensures { option_copied result ≡ at self.now number }
    {
        let key = self.class.key(number)?;
        self.slots.get(key)?.as_ref()
    }

    /// Puts a value in place of the one under a number, which is handed back. `None` where there is none.
    pub fn replace(&mut self, number: u32, value: T) -> Option<T>
        ensures answer { result ≡ at self.old number }
        ensures values { (n : ℕ) → at self.new n ≡ (if n == number then replaced value (at self.old number) else at self.old n) }
        ensures used { (n : ℕ) → is_used self.new n ≡ is_used self.old n }
        ensures class { self.new.class ≡ self.old.class }
        ensures next { next_of self.new ≡ next_of self.old }
    {
        let key = self.class.key(number)?;
        match self.slots.get_mut(key)? {
            Some(held) => Some(mem::replace(held, value)),
            None => None,
        }
    }

    /// Whether each number is used.
    pub fn is_full(&self) -> bool
        ensures { IsTrue result ↔ IsUsedUp self.now }
    {
        self.slots.len() >= self.class.size()
    }

    /// The number that the next `create` gives. `Full` where each number is used; want of memory where the slab's next key has no
    /// number although one is left, which no slab is known to do.
    pub fn next(&self) -> Result<u32, CreateFault>
        ensures next { IfOk result (λ number. IsGiven self.now number) }
        ensures full { result ≡ Err Full ↔ IsUsedUp self.now }
    {
        if self.is_full() {
            return Err(CreateFault::Full);
        }
        match self.class.number(self.slots.vacant_key()) {
            Some(number) => Ok(number),
            None => Err(CreateFault::NoMemory),
        }
    }

    /// Puts a value under a number that isn't used, the one that was next.
    pub fn create(&mut self, value: T) -> Result<u32, CreateFault>
        ensures number { IfOk result (λ number. IsGiven self.old number) }
        ensures values { IfOk result (λ number. (n : ℕ) → at self.new n ≡ (if n == number then Some value else at self.old n)) }
        ensures used { IfOk result (λ number. (n : ℕ) → is_used self.new n ≡ given true number (is_used self.old) n) }
        ensures class { self.new.class ≡ self.old.class }
        ensures full { result ≡ Err Full ↔ IsUsedUp self.old }
        ensures unchanged { OnErr result (self.new ≡ self.old) }
    {
        let number = self.next()?;
        let Ok(()) = make_room(&mut self.slots, &mut self.freed) else {
            return Err(CreateFault::NoMemory);
        };
        self.slots.insert_reserved(Some(value));
        Ok(number)
    }

    /// Takes the value under a number away. The number stays used until `settle`. `None` where there is no value.
    pub fn free(&mut self, number: u32) -> Option<T>
        ensures answer { result ≡ at self.old number }
        ensures values { (n : ℕ) → at self.new n ≡ (if n == number then None else at self.old n) }
        ensures used { (n : ℕ) → is_used self.new n ≡ is_used self.old n }
        ensures class { self.new.class ≡ self.old.class }
        ensures next { next_of self.new ≡ next_of self.old }
    {
        let key = self.class.key(number)?;
        let value = self.slots.get_mut(key)?.take()?;
        self.freed.push_reserved(key);
        Some(value)
    }

    /// Takes back a value that is there, as if it had not been created: its number isn't used any more.
    pub fn withdraw(&mut self, number: u32)
        requires { IsTrue (is_held self.old number) }
        ensures values { (n : ℕ) → at self.new n ≡ (if n == number then None else at self.old n) }
        ensures used { (n : ℕ) → is_used self.new n ≡ (if n == number then false else is_used self.old n) }
        ensures class { self.new.class ≡ self.old.class }
    {
        if let Some(key) = self.class.key(number) {
            self.slots.try_remove(key);
        }
    }

    /// From now on the numbers of what was freed may be given again.
    pub fn settle(&mut self)
        ensures values { (n : ℕ) → at self.new n ≡ at self.old n }
        ensures used { (n : ℕ) → is_used self.new n ≡ is_some (at self.old n) }
        ensures class { self.new.class ≡ self.old.class }
    {
        while let Some(key) = self.freed.pop() {
            if is_freed_at(&self.slots, key) {
                self.slots.try_remove(key);
            }
        }
    }

    /// Takes every value away; each number may be given again.
    pub fn clear(&mut self)
        ensures values { (n : ℕ) → at self.new n ≡ None }
        ensures used { (n : ℕ) → is_used self.new n ≡ false }
        ensures class { self.new.class ≡ self.old.class }
    {
        self.slots.clear();
        self.freed.clear();
    }

    /// How many values there are.
    pub fn len(&self) -> usize
        ensures { IsCount (λ n. IsTrue (is_held self.now n)) result }
    {
        self.slots.len() - self.freed.len()
    }

    /// The numbers that have a value, in rising order.
    pub fn numbers(&self, alloc: Global) -> Result<Vec<u32>, AllocError>
        ensures { IfOk result (λ found. Lists (is_held self.now) found.items) }
    {
        let mut found = Vec::new(alloc);
        for (key, slot) in self.slots.iter() {
            if slot.is_none() {
                continue;
            }
            if let Some(number) = self.class.number(key) {
                found.push(number)?;
            }
        }
        Ok(found)
    }

    /// The same values under the same numbers.
    pub fn copy(&self) -> Result<Identifiers<T>, AllocError>
    where
        T: Clone,
        ensures { IfOk result (λ copied. IsCopy T.is_clone self.now copied) }
    {
        let slots = self.slots.clone()?;
        let mut freed = self.freed.clone()?;
        freed.reserve(slots.len() - freed.len())?;
        Ok(Identifiers {
            class: self.class,
            slots,
            freed,
        })
    }
}
