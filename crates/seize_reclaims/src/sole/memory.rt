//! The one who has the memory to himself, as the memory of the machines that he steps.
use crate::one::One;
use crate::sole::Sole;
use seize::rows::Defers;
use seize_words::{At, Fault, Look, Memory};

impl<'a, T: Defers, R: One<T>> Look<T> for Sole<'a, T, R> {
    ghost use Rattle.seize_seats.specs.Seats.State.{Allows, Owns};
    ghost use Rattle.seize_reclaims.specs.Empties.Made.{Can, Has, shown_of};

    ghost can = { Can (λ c. Owns (R.holds c.blocks.now.words.fixed) R.keeps c.seat.id c.seat.view)
        (λ c op. Allows (R.holds c.blocks.now.words.fixed) R.keeps c.seat.id c.seat.view op (R.then c.seat.view op)) };

    ghost took = { Has (λ c. c.blocks) (λ c. c.seat.view) R.then };

    ghost shown = { shown_of T.defers R.left (λ c. R.acts c.seat.view) };

    fn load(&mut self, at: At) -> u64 {
        self.blocks.load(&mut self.seat, at)
    }

    fn value(&self, block: u64) -> &T {
        R::acts_alone();
        self.blocks.value(&self.seat, block)
    }
}

impl<'a, T: Defers, R: One<T>> Memory<T> for Sole<'a, T, R> {
    fn store(&mut self, at: At, word: u64) {
        self.blocks.store(&mut self.seat, at, word);
    }

    fn swap(&mut self, at: At, word: u64) -> u64 {
        self.blocks.swap(&mut self.seat, at, word)
    }

    fn add(&mut self, at: At, by: u64) -> u64 {
        self.blocks.add(&mut self.seat, at, by)
    }

    fn or(&mut self, at: At, bits: u64) -> u64 {
        self.blocks.or(&mut self.seat, at, bits)
    }

    fn exchange(&mut self, at: At, old: u64, new: u64) -> Result<u64, u64> {
        self.blocks.exchange(&mut self.seat, at, old, new)
    }

    fn make(&mut self, value: T, words: u64) -> Result<u64, T> {
        self.blocks
            .make(&mut self.seat, &mut self.near, value, words)
    }

    fn take(&mut self, block: u64) -> T {
        self.blocks.take(&mut self.seat, block)
    }

    fn rewrite(&mut self, block: u64, value: T) -> T {
        self.blocks.rewrite(&mut self.seat, block, value)
    }

    fn room(&mut self, bucket: u64) -> Result<(), Fault> {
        self.blocks.room(&mut self.seat, bucket)
    }
}
