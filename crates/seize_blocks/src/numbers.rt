//! Numbers that are free: in the strips that are there, or in one more, which is laid where none is free.
ghost use Rattle.std.specs.Prelude.{◌≡◌, ◌+◌, ◌*◌, ◌≤◌, ◌<◌, ◌^◌, IfSome};
ghost use Rattle.seize_seats.specs.Seats.Doors.{block_bytes};
ghost use Rattle.seize_seats.specs.Seats.Owned.{stride};
ghost use Rattle.seize_seats.specs.contracts.kept.Kept.{the_row as KeptOf};
ghost use Rattle.seize_blocks.specs.Parts.{IsHad, IsPart, IsClaimed};

use crate::blocks::{Blocks, MOST};
use crate::part::{Part, places_in};
use seize_atoms::{Claim, Rule};
use seize_seats::{Kept, fits, lay_strip, skip_of, take_back};
use std::ptr::NonNull;

impl<T, R: Rule<T>> Blocks<T, R> {
    /// The first strip.
    #[inline(always)]
    fn first_part(&self) -> Part<T>
        ensures { IsPart self.now.words.id result 0 }
    {
        Part {
            strip: self.words.strip(),
            values: self.values.at,
            first: 0,
            count: self.count,
            skip: self.skip,
        }
    }

    /// The strip behind a door, if there is one.
    fn part_behind(&self, door: u64, first: u64) -> Option<Part<T>>
        requires { (door < 32) × (first ≡ self.now.words.id.least * 2 ^ door) × (first + first ≤ 2 ^ 32) }
        ensures { IfSome result (λ p. IsPart self.now.words.id p (door + 1)) }
    {
        let strip = self.words.look(self.doors.at, door);
        let place = places_in(&strip);
        match NonNull::new(place.at) {
            Some(_) => {
                let skip = skip_of::<Kept<T>>(first as usize) as u64;
                let values = place.at;
                Some(Part {
                    strip,
                    values,
                    first,
                    count: first,
                    skip,
                })
            }
            None => None,
        }
    }

    /// The strip that follows a strip. Where it is not there it is laid, if there is memory.
    fn next_part(&self, last: &Part<T>, door: u64) -> Option<Part<T>>
        requires { IsPart self.now.words.id last.now door }
        ensures { IfSome result (λ p. IsPart self.now.words.id p (door + 1)) }
    {
        let first = last.first + last.count;
        if door >= 32 || first > MOST / 2 {
            return None;
        }
        match self.part_behind(door, first) {
            Some(part) => Some(part),
            None => {
                if fits::<Kept<T>>(first as usize) {
                    self.lay(last, door, first);
                    self.part_behind(door, first)
                } else {
                    None
                }
            }
        }
    }

    /// Lays a strip behind a door, if there is memory and the door is null.
    fn lay(&self, last: &Part<T>, door: u64, first: u64)
        requires { IsPart self.now.words.id last.now door × (first ≡ last.now.first + last.now.count) × (door < 32) × (first + first ≤ 2 ^ 32)
            × (block_bytes (KeptOf T.row) first < 2 ^ 63) × (first * stride (KeptOf T.row) < 2 ^ 63) }
    {
        if let Ok((places, words, deed)) = lay_strip::<Kept<T>>(&self.alloc, first as usize) {
            let (found, place, left) = self
                .words
                .offer(&last.strip, self.doors.at, door, places, words, deed);
            if let Err(_) = found {
                take_back(&self.alloc, left, place.at, first as usize);
            }
        }
    }

    /// Claims a number of a strip, if one is free from this index on: its index in it. One after the other is tried.
    #[inline(always)]
    fn claim_in(&self, part: &Part<T>, from: u64) -> Option<(u64, Claim)>
        requires { IsHad self.now.words.id part.now }
        ensures { IfSome result (λ c. (c.0 < part.now.count) × (c.1.found ≡ 0) × (c.1.base ≡ self.now.words.id.hands_name)
            × (c.1.index ≡ part.now.first + c.0)) }
    {
        for index in from..part.count {
            let (found, claim) = self
                .words
                .by(&part.strip)
                .claim(part.first + index, index * 5 + part.skip + 4);
            if found == 0 {
                return Some((index, claim));
            }
        }
        None
    }

    /// The strip of a number, if it is there.
    #[inline(always)]
    fn part_of(&self, number: u64) -> Option<Part<T>>
        requires { number < 2 ^ 32 }
        ensures { IfSome result (λ p. IsHad self.now.words.id p) }
    {
        if number <= self.last {
            return Some(self.first_part());
        }
        let (door, first, _) = self.door_of(number);
        self.part_behind(door, first)
    }

    /// A number of the strip of this one, from that on, if the strip is there and one is free. Behind the last number the first one follows.
    #[inline(always)]
    pub(crate) fn close(&self, from: u64) -> Option<(Part<T>, u64, Claim)>
        ensures { IfSome result (λ c. IsClaimed self.now.words.id c) }
    {
        let number = from % MOST;
        let Some(part) = self.part_of(number) else {
            return None;
        };
        match self.claim_in(&part, number.wrapping_sub(part.first)) {
            Some((index, claim)) => Some((part, index, claim)),
            None => None,
        }
    }

    /// A number from this one on, if one is free in the strips that are there.
    fn near(&self, from: u64) -> Option<(Part<T>, u64, Claim)>
        ensures { IfSome result (λ c. IsClaimed self.now.words.id c) }
    {
        let mut next = from;
        for _ in 0..33 {
            if next >= MOST {
                return None;
            }
            let Some(part) = self.part_of(next) else {
                return None;
            };
            if let Some((index, claim)) = self.claim_in(&part, next.wrapping_sub(part.first)) {
                return Some((part, index, claim));
            }
            next = part.first + part.count;
        }
        None
    }

    /// A number of any strip, from the first one on. Where none is free a strip more is laid.
    fn anywhere(&self) -> Option<(Part<T>, u64, Claim)>
        ensures { IfSome result (λ c. IsClaimed self.now.words.id c) }
    {
        let mut part = self.first_part();
        for door in 0..33 {
            if let Some((index, claim)) = self.claim_in(&part, 0) {
                return Some((part, index, claim));
            }
            match self.next_part(&part, door) {
                Some(next) => part = next,
                None => return None,
            }
        }
        None
    }

    /// A number that was free and is claimed now, with its strip and its index in it. It is looked for from this one on, and then from the first one on: so
    /// who goes on from the one that he had last goes over all numbers before he comes to one again.
    pub(crate) fn number(&self, from: u64) -> Option<(Part<T>, u64, Claim)>
        ensures { IfSome result (λ c. IsClaimed self.now.words.id c) }
    {
        match self.near(from) {
            Some(claimed) => Some(claimed),
            None => self.anywhere(),
        }
    }
}
