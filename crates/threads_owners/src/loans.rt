//! A map that a seat owns is lent to another one, which leans on that seat meanwhile, and comes back.
use seize_blocks::{Lesson, Turn};
use seize_views::Fixed;
use threads_errands::View;

/// A seat comes to lean on one that owns a map, and knows that map then.
pub struct Borrowing;

impl<K, V, S> Lesson<Fixed, View<K, V, S>> for Borrowing {
    ghost use Rattle.threads_owners.specs.Loans.{BorrowsMap};

    ghost to = { λ _. BorrowsMap };
}

/// It leans on it no longer, and knows no map.
pub struct Restoring;

impl<K, V, S> Turn<Fixed, View<K, V, S>> for Restoring {
    ghost use Rattle.threads_owners.specs.Loans.{RestoresMap};

    ghost to = { λ _. RestoresMap };
}
