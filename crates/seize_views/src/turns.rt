//! The steps of a seat, or of two, that make no operation.
use crate::content::Content;
use crate::view::{Fixed, Noted};
use seize::rows::Defers;
use seize_blocks::{Lesson, Meeting, Turn};
use std::marker::PhantomData;

/// Registering begins.
pub struct RegisteringBegins<T, C>(PhantomData<(T, C)>);

/// Entering begins.
pub struct Entering<T, C>(PhantomData<(T, C)>);

/// A retirement begins.
pub struct Retiring<T, C>(PhantomData<(T, C)>);

/// The trying of a batch begins.
pub struct Flushing<T, C>(PhantomData<(T, C)>);

/// Leaving begins.
pub struct LeavingBegins<T, C>(PhantomData<(T, C)>);

/// Refreshing begins.
pub struct Refreshing<T, C>(PhantomData<(T, C)>);

/// What was seen is let go.
pub struct Forgetting<T, C>(PhantomData<(T, C)>);

/// What was begun ends.
pub struct BegunEnds<T, C>(PhantomData<(T, C)>);

/// Giving up begins.
pub struct Freeing<T, C>(PhantomData<(T, C)>);

/// A block that was unlinked is handed on.
pub struct Handing;

/// A seat begins to watch the section that another one has open.
pub struct Watching;

/// It watches it no longer.
pub struct Ceasing;

/// A seat begins to lean on one that has a section open, and is lent for that.
pub struct Leaning;

/// It leans on it no longer.
pub struct Returning;

/// A seat is to make a block for a chain.
pub struct Joining;

/// A seat within a section is to go down a chain.
pub struct Walking;

/// It goes on to the block that the link names at which it has looked.
pub struct Going;

/// It goes on no more, and knows of no block.
pub struct Stopping;

/// A seat that has seen a block is to take one out of a root.
pub struct TakingBegins;

/// What it has taken out is unlinked.
pub struct Cutting;

/// The row begins that puts it behind the block that the seat has seen.
pub struct Deferring;

/// That row ends.
pub struct DeferringEnds;

impl<T: Defers, C: Content<T>> Turn<Fixed, C::View> for RegisteringBegins<T, C> {
    ghost use Rattle.seize_views.specs.Views.Begun.{registering, Makes};
    ghost use Rattle.seize_views.specs.Views.Content.{Turned};
    ghost use Rattle.seize_views.specs.Views.Notes.{still};

    ghost to = { Turned C.notes C.beside (Makes registering) still };
}

impl<T: Defers, C: Content<T>> Turn<Fixed, C::View> for Entering<T, C> {
    ghost use Rattle.seize_views.specs.Views.Begun.{entering, Makes};
    ghost use Rattle.seize_views.specs.Views.Content.{Turned};
    ghost use Rattle.seize_views.specs.declared.view.Began.TheVariants.{Section};

    ghost to = { Turned C.notes C.beside (Makes entering) (λ _. Section) };
}

impl<T: Defers, C: Content<T>> Turn<Fixed, C::View> for Retiring<T, C> {
    ghost use Rattle.seize_views.specs.Views.Begun.{Retires};
    ghost use Rattle.seize_views.specs.Views.Content.{Turned};
    ghost use Rattle.seize_views.specs.declared.view.Began.TheVariants.{Retirement};

    ghost to = { Turned C.notes C.beside Retires (λ _. Retirement) };
}

impl<T: Defers, C: Content<T>> Turn<Fixed, C::View> for Flushing<T, C> {
    ghost use Rattle.seize_views.specs.Views.Begun.{Flushes};
    ghost use Rattle.seize_views.specs.Views.Content.{Turned};
    ghost use Rattle.seize_views.specs.declared.view.Began.TheVariants.{Trial};

    ghost to = { Turned C.notes C.beside Flushes (λ _. Trial) };
}

impl<T: Defers, C: Content<T>> Turn<Fixed, C::View> for LeavingBegins<T, C> {
    ghost use Rattle.seize_views.specs.Views.Begun.{leaving, Makes};
    ghost use Rattle.seize_views.specs.Views.Content.{Turned};
    ghost use Rattle.seize_views.specs.Views.Notes.{still};

    ghost to = { Turned C.notes C.beside (Makes leaving) still };
}

impl<T: Defers, C: Content<T>> Turn<Fixed, C::View> for Refreshing<T, C> {
    ghost use Rattle.seize_views.specs.Views.Begun.{refreshes, Makes};
    ghost use Rattle.seize_views.specs.Views.Content.{Turned};
    ghost use Rattle.seize_views.specs.declared.view.Began.TheVariants.{Section};

    ghost to = { Turned C.notes C.beside (Makes refreshes) (λ _. Section) };
}

impl<T: Defers, C: Content<T>> Turn<Fixed, C::View> for Forgetting<T, C> {
    ghost use Rattle.seize_views.specs.Views.Begun.{forgetting, Makes};
    ghost use Rattle.seize_views.specs.Views.Content.{Turned};
    ghost use Rattle.seize_views.specs.Views.Notes.{still};

    ghost to = { Turned C.notes C.beside (Makes forgetting) still };
}

impl<T: Defers, C: Content<T>> Turn<Fixed, C::View> for BegunEnds<T, C> {
    ghost use Rattle.seize_views.specs.Views.Begun.{ended, Makes};
    ghost use Rattle.seize_views.specs.Views.Content.{Turned};
    ghost use Rattle.seize_views.specs.Views.Notes.{still};

    ghost to = { Turned C.notes C.beside (Makes ended) still };
}

impl<T: Defers, C: Content<T>> Turn<Fixed, C::View> for Freeing<T, C> {
    ghost use Rattle.seize_views.specs.Views.Begun.{freeing, Makes};
    ghost use Rattle.seize_views.specs.Views.Content.{Turned};
    ghost use Rattle.seize_views.specs.Views.Notes.{still};

    ghost to = { Turned C.notes C.beside (Makes freeing) still };
}

impl<T> Meeting<Fixed, Noted<T>> for Handing {
    ghost use Rattle.seize_views.specs.Views.Notes.{NotedHands};

    ghost to = { NotedHands };
}

impl<T> Meeting<Fixed, Noted<T>> for Watching {
    ghost use Rattle.seize_views.specs.Views.Notes.{Begins};

    ghost to = { λ _. Begins };
}

impl<T> Meeting<Fixed, Noted<T>> for Ceasing {
    ghost use Rattle.seize_views.specs.Views.Notes.{Ends};

    ghost to = { λ _. Ends };
}

impl<T> Lesson<Fixed, Noted<T>> for Leaning {
    ghost use Rattle.seize_views.specs.Views.Notes.{BeginsUnder};

    ghost to = { λ _. BeginsUnder };
}

impl<T> Turn<Fixed, Noted<T>> for Returning {
    ghost use Rattle.seize_views.specs.Views.Notes.{ReturnsToRest};

    ghost to = { λ _. ReturnsToRest };
}

impl<T> Turn<Fixed, Noted<T>> for Joining {
    ghost use Rattle.seize_views.specs.Views.Stacking.{joining, GoesItsWay};

    ghost to = { λ _. GoesItsWay joining };
}

impl<T> Turn<Fixed, Noted<T>> for Walking {
    ghost use Rattle.seize_views.specs.Views.Stacking.{walking, GoesItsWay};

    ghost to = { λ _. GoesItsWay walking };
}

impl<T> Turn<Fixed, Noted<T>> for Going {
    ghost use Rattle.seize_views.specs.Views.Stacking.{going, GoesItsWay};

    ghost to = { λ _. GoesItsWay going };
}

impl<T> Turn<Fixed, Noted<T>> for Stopping {
    ghost use Rattle.seize_views.specs.Views.Stacking.{stopping, GoesItsWay};

    ghost to = { λ _. GoesItsWay stopping };
}

impl<T> Turn<Fixed, Noted<T>> for TakingBegins {
    ghost use Rattle.seize_views.specs.Views.Deferring.{NotedTaking};

    ghost to = { λ _. NotedTaking };
}

impl<T> Turn<Fixed, Noted<T>> for Cutting {
    ghost use Rattle.seize_views.specs.Views.Deferring.{cutting};
    ghost use Rattle.seize_views.specs.Views.Stacking.{GoesItsWay};

    ghost to = { λ _. GoesItsWay cutting };
}

impl<T: Defers> Turn<Fixed, Noted<T>> for Deferring {
    ghost use Rattle.seize_views.specs.Views.Deferring.{NotedPutting};

    ghost to = { λ _. NotedPutting T.defers };
}

impl<T> Turn<Fixed, Noted<T>> for DeferringEnds {
    ghost use Rattle.seize_views.specs.Views.Deferring.{returning};
    ghost use Rattle.seize_views.specs.Views.Stacking.{GoesItsWay};

    ghost to = { λ _. GoesItsWay returning };
}
