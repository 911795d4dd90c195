//! Values under numbers: each joins under the next number, and can be taken out, in any order.
ghost use Rattle.std.specs.Prelude.{◌≡◌, ◌==◌, ℕ, ◌+◌, ◌<◌, ◌≤◌, true, None, Some, nat_le, option_copied, if◌then◌else◌, IfNone, IfSome, IsOk, OnOk};

use crate::numbered_place::Place;
use std::alloc::{AllocError, Allocator, Global};
use std::marker::Model;

/// So few places are never swept.
const FEW: usize = 32;

/// Values under rising numbers. A value that joins takes the next number. One that is taken out leaves its place empty until the empty
/// places are swept, when half of the places are empty. So a value joins in constant time. It is found in logarithmic time, or at once
/// where every later number has its place.
#[derive(Drop)]
pub struct ByNumber<V: Drop, A: Allocator + Copy = Global> {
    pub(crate) places: Vec<Place<V>, A>,
    /// The number that the next value takes.
    pub(crate) next: u64,
    /// About how many places are empty.
    pub(crate) empty: usize,
}

impl<V: Drop, A: Allocator + Copy> Model for ByNumber<V, A> {
    ghost use Rattle.std.specs.Prelude.{◌≡◌, ◌-◌, true, vec_capacity, vec_len};
    ghost use Rattle.shm_world.specs.ByNumber.{Numbered, rises};

    ghost Value = { Numbered V };

    ghost view = { λ b. record { places = b.places.items; next = b.next; spare = vec_capacity b.places - vec_len b.places } };

    ghost invariant = { λ b. rises 0 b.places.items b.next ≡ true };
}

impl<V: Drop, A: Allocator + Copy> ByNumber<V, A> {
    ghost use Rattle.shm_world.specs.ByNumber.{place_for, rises, value_of, StandsAt};

    /// No value. The first takes the number 0.
    pub(crate) fn new(alloc: A) -> ByNumber<V, A>
        ensures none { (k : ℕ) → value_of k result.places ≡ None }
        ensures next { result.next ≡ 0 }
    {
        ByNumber {
            places: Vec::new(alloc),
            next: 0,
            empty: 0,
        }
    }

    /// The number that the next value takes.
    pub(crate) fn next(&self) -> u64
        ensures { result ≡ self.now.next }
    {
        self.next
    }

    pub(crate) fn allocator(&self) -> &A {
        self.places.allocator()
    }

    /// The places, that of the least number first.
    pub(crate) fn as_slice(&self) -> &[Place<V>]
        ensures places { result.now ≡ self.now.places }
        ensures rising { rises 0 self.now.places self.now.next ≡ true }
    {
        self.places.as_slice()
    }

    /// The value of this number, unless it was taken out.
    pub(crate) fn get(&self, number: u64) -> Option<&V>
        ensures { option_copied result ≡ value_of number self.now.places }
    {
        let at = self.place_of(number)?;
        self.places[at].value.as_ref()
    }

    /// Takes the value out, and answers its place, which stays.
    #[inline(always)]
    pub(crate) fn take(&mut self, number: u64) -> Option<(usize, V)>
        ensures some { IfSome result (λ r. value_of number self.old.places ≡ Some r.1) }
        ensures none { IfNone result (value_of number self.old.places ≡ None) }
        ensures after { (k : ℕ) → value_of k self.new.places ≡ (if number == k then None else value_of k self.old.places) }
        ensures next { self.new.next ≡ self.old.next }
        ensures place { IfSome result (λ r. StandsAt number r.0 self.new.places) }
    {
        let at = self.place_of(number)?;
        let value = self.places[at].value.take()?;
        self.empty = self.empty.saturating_add(1);
        Some((at, value))
    }

    /// Puts back what was taken out of this place.
    pub(crate) fn put_back(&mut self, at: usize, value: V)
        ensures value { (number k : ℕ) → StandsAt number at self.old.places
            → value_of k self.new.places ≡ (if number == k then Some value else value_of k self.old.places) }
        ensures next { self.new.next ≡ self.old.next }
    {
        self.empty = self.empty.saturating_sub(1);
        if self.places.len() <= at {
            return;
        }
        let number = self.places[at].number;
        self.places[at] = Place {
            number,
            value: Some(value),
        };
    }

    /// A value joins under the next number. There is room for it.
    #[inline(always)]
    pub(crate) fn push(&mut self, value: V)
        requires room { 0 < self.old.spare }
        requires numbers { self.old.next < 18446744073709551615 }
        ensures value { (k : ℕ) → value_of k self.new.places ≡ (if self.old.next == k then Some value else value_of k self.old.places) }
        ensures places { (number at : ℕ) → StandsAt number at self.old.places → StandsAt number at self.new.places }
        ensures next { self.new.next ≡ self.old.next + 1 }
        ensures room { self.old.spare ≡ self.new.spare + 1 }
    {
        self.push_at(self.next, value);
    }

    /// A value joins under this number. There is room for it.
    #[inline(always)]
    pub(crate) fn push_at(&mut self, number: u64, value: V)
        requires room { 0 < self.old.spare }
        requires free { self.old.next ≤ number }
        requires numbers { number < 18446744073709551615 }
        ensures value { (k : ℕ) → value_of k self.new.places ≡ (if number == k then Some value else value_of k self.old.places) }
        ensures places { (j at : ℕ) → StandsAt j at self.old.places → StandsAt j at self.new.places }
        ensures next { self.new.next ≡ number + 1 }
        ensures room { self.old.spare ≡ self.new.spare + 1 }
    {
        self.places.push_reserved(Place {
            number,
            value: Some(value),
        });
        self.next = number + 1;
    }

    /// The numbers below this one are passed over.
    pub(crate) fn pass_to(&mut self, next: u64)
        requires { self.old.next ≤ next }
        ensures items { self.new.places ≡ self.old.places }
        ensures next { self.new.next ≡ next }
        ensures room { self.new.spare ≡ self.old.spare }
    {
        self.next = next;
    }

    /// Makes room for this many values.
    pub(crate) fn reserve(&mut self, additional: usize) -> Result<(), AllocError>
        ensures room { OnOk result (additional ≤ self.new.spare) }
        ensures succeeds { additional ≤ self.old.spare → IsOk result }
        ensures kept { self.old.spare ≤ self.new.spare }
        ensures items { self.new.places ≡ self.old.places }
        ensures next { self.new.next ≡ self.old.next }
    {
        self.places.reserve(additional)
    }

    /// Puts the value under a number that was used before, in the place of what is there. There is room for it.
    pub(crate) fn put(&mut self, number: u64, value: V)
        requires room { 0 < self.old.spare }
        requires given { number < self.old.next }
        ensures value { (k : ℕ) → value_of k self.new.places ≡ (if number == k then Some value else value_of k self.old.places) }
        ensures next { self.new.next ≡ self.old.next }
        ensures room { self.old.spare ≤ self.new.spare + 1 }
    {
        let place = Place {
            number,
            value: Some(value),
        };
        let Some(at) = self.place_of(number) else {
            self.insert(place);
            return;
        };
        self.places[at] = place;
    }

    /// Puts the place, whose number has none, between the others.
    fn insert(&mut self, place: Place<V>)
        requires room { 0 < self.old.spare }
        requires given { place.number < self.old.next }
        requires absent { (at : ℕ) → StandsAt place.number at self.old.places → ⊥ }
        ensures value { (k : ℕ) → value_of k self.new.places ≡ (if place.number == k then place.value else value_of k self.old.places) }
        ensures next { self.new.next ≡ self.old.next }
        ensures room { self.old.spare ≤ self.new.spare + 1 }
    {
        let at = self.place_for(place.number);
        match self.places.insert(at, place) {
            Ok(()) => {}
            Err(_) => unreachable!(),
        }
    }

    /// Forgets the values from this number on, which is then the next one.
    pub(crate) fn forget_from(&mut self, first: u64)
        ensures value { (k : ℕ) → value_of k self.new.places ≡ (if nat_le first k then None else value_of k self.old.places) }
        ensures next { self.new.next ≡ first }
        ensures room { self.old.spare ≤ self.new.spare }
    {
        let left = self.place_for(first);
        self.places.truncate(left);
        self.next = first;
    }

    /// Gives the empty places up, if they are as many as the others.
    #[inline(always)]
    pub(crate) fn sweep(&mut self)
        ensures value { (k : ℕ) → value_of k self.new.places ≡ value_of k self.old.places }
        ensures next { self.new.next ≡ self.old.next }
        ensures room { self.old.spare ≤ self.new.spare }
    {
        if self.places.len() < FEW || self.empty < self.places.len() / 2 {
            return;
        }
        self.give_up_empty();
    }

    /// Gives the empty places up.
    // Out of line, so that the test before it stays short.
    #[inline(never)]
    fn give_up_empty(&mut self)
        ensures value { (k : ℕ) → value_of k self.new.places ≡ value_of k self.old.places }
        ensures next { self.new.next ≡ self.old.next }
        ensures room { self.old.spare ≤ self.new.spare }
    {
        self.places.retain(|place| place.value.is_some());
        self.empty = 0;
    }

    /// The place of this number.
    fn place_of(&self, number: u64) -> Option<usize>
        ensures some { IfSome result (λ at. StandsAt number at self.now.places) }
        ensures none { IfNone result ((at : ℕ) → StandsAt number at self.now.places → ⊥) }
    {
        if let Some(at) = self.place_from_end(number) {
            return Some(at);
        }
        self.search(number)
    }

    /// The place of this number, where all numbers behind it have theirs: the place is as far from the end as the number is from the next.
    fn place_from_end(&self, number: u64) -> Option<usize>
        ensures { IfSome result (λ at. StandsAt number at self.now.places) }
    {
        let behind = self.next.checked_sub(number)?;
        let at = self.places.len().checked_sub(behind as usize)?;
        let guess = self.places.get(at)?;
        if guess.number == number {
            Some(at)
        } else {
            None
        }
    }

    /// The place of this number, by halving.
    fn search(&self, number: u64) -> Option<usize>
        ensures some { IfSome result (λ at. StandsAt number at self.now.places) }
        ensures none { IfNone result ((at : ℕ) → StandsAt number at self.now.places → ⊥) }
    {
        let at = self.place_for(number);
        let place = self.places.get(at)?;
        if place.number == number {
            Some(at)
        } else {
            None
        }
    }

    /// Where the place of this number is, or would be: behind those of all lesser numbers.
    fn place_for(&self, number: u64) -> usize
        ensures { result ≡ place_for number self.now.places }
    {
        let mut low = 0;
        let mut high = self.places.len();
        'places: while low < high {
            let middle = low + (high - low) / 2;
            if self.places[middle].number < number {
                low = middle + 1;
            } else {
                high = middle;
            }
        }
        low
    }
}
