//! Events of schedules, as rows of tables.
use papaya_raw::ResizeMode;
use run_schedules::call::{Call, OneKey, Reply, Response};
use run_schedules::event::Event;
use run_schedules::outcome::Outcome;
use run_schedules::token::Token;
use seize_words::Fault;
use std::alloc::{AllocError, Global};

/// A call of the map m under the guard g.
#[derive(Clone, Copy)]
pub enum Made {
    Get(u64),
    Insert(u64, u64),
    TryInsert(u64, u64),
    TryInsertWith(u64),
    GetOrInsert(u64, u64),
    GetOrInsertWith(u64),
    Update(u64),
    UpdateOrInsert(u64, u64),
    UpdateOrInsertWith(u64),
    Compute(u64),
    Remove(u64),
    RemoveIf(u64),
    Reserve(u64),
    Clear,
    Retain,
    Len,
    Walk,
}

impl Made {
    fn on_key(self) -> OneKey<u64, u64> {
        match self {
            Made::Insert(key, value) => OneKey::Insert(key, value),
            Made::TryInsert(key, value) => OneKey::TryInsert(key, value),
            Made::TryInsertWith(key) => OneKey::TryInsertWith(key),
            Made::GetOrInsert(key, value) => OneKey::GetOrInsert(key, value),
            Made::GetOrInsertWith(key) => OneKey::GetOrInsertWith(key),
            Made::Update(key) => OneKey::Update(key),
            Made::UpdateOrInsert(key, value) => OneKey::UpdateOrInsert(key, value),
            Made::UpdateOrInsertWith(key) => OneKey::UpdateOrInsertWith(key),
            Made::Compute(key) => OneKey::Compute(key),
            Made::Remove(key) => OneKey::Remove(key),
            Made::RemoveIf(key) => OneKey::RemoveIf(key),
            Made::Get(key) => OneKey::Get(key),
            _ => OneKey::Get(0),
        }
    }

    fn call(self) -> Call<u64, u64> {
        match self {
            Made::Reserve(more) => Call::Reserve(more),
            Made::Clear => Call::Clear,
            Made::Retain => Call::Retain,
            Made::Len => Call::Len,
            Made::Walk => Call::Walk,
            other => Call::On(other.on_key()),
        }
    }
}

/// What a call is told.
#[derive(Clone, Copy)]
pub enum ReplyRow {
    Gives(u64),
    Removes,
    Aborts(u64),
    Decides(bool),
}

impl ReplyRow {
    fn reply(self) -> Reply<u64> {
        match self {
            ReplyRow::Gives(value) => Reply::Gives(value),
            ReplyRow::Removes => Reply::Removes,
            ReplyRow::Aborts(value) => Reply::Aborts(value),
            ReplyRow::Decides(is_yes) => Reply::Decides(is_yes),
        }
    }
}

/// An event. The registration is A, the guard g, and the map m; the caller has no name.
#[derive(Clone, Copy)]
pub enum Step {
    Register,
    Unregister,
    Enter,
    Leave,
    Make(ResizeMode, u64),
    End,
    ReclaimAll,
    Close,
    Call(Made),
    /// A call of the caller B, and its steps.
    Beside(Made),
    GoBeside,
    Says(ReplyRow),
    Go,
    Next,
    Stop,
}

fn word(alloc: Global, text: &[u8]) -> Result<Token, AllocError> {
    Token::copy_of(alloc, text)
}

fn of_map(alloc: Global, step: Step) -> Result<Event<u64, u64>, AllocError> {
    Ok(match step {
        Step::Make(mode, capacity) => Event::MakeMap {
            map: word(alloc, b"m")?,
            mode,
            capacity,
        },
        _ => Event::EndMap {
            map: word(alloc, b"m")?,
        },
    })
}

fn of_call(alloc: Global, step: Step) -> Result<Event<u64, u64>, AllocError> {
    Ok(match step {
        Step::Call(made) => Event::OneCall {
            guard: word(alloc, b"g")?,
            map: word(alloc, b"m")?,
            call: made.call(),
        },
        Step::Beside(made) => Event::Begin {
            caller: word(alloc, b"B")?,
            guard: word(alloc, b"g")?,
            map: word(alloc, b"m")?,
            call: made.call(),
        },
        Step::GoBeside => Event::Go {
            caller: word(alloc, b"B")?,
            refuse: false,
        },
        Step::Says(told) => Event::Replied {
            caller: word(alloc, b"-")?,
            reply: told.reply(),
        },
        Step::Go => Event::Go {
            caller: word(alloc, b"-")?,
            refuse: false,
        },
        Step::Next => Event::Next {
            caller: word(alloc, b"-")?,
        },
        Step::Stop => Event::Stop {
            caller: word(alloc, b"-")?,
        },
        other => return of_map(alloc, other),
    })
}

impl Step {
    /// Returns the event, with its names.
    pub fn event(self, alloc: Global) -> Result<Event<u64, u64>, AllocError> {
        Ok(match self {
            Step::Register => Event::Register {
                registration: word(alloc, b"A")?,
            },
            Step::Unregister => Event::Unregister {
                registration: word(alloc, b"A")?,
            },
            Step::Enter => Event::Enter {
                guard: word(alloc, b"g")?,
                registration: word(alloc, b"A")?,
            },
            Step::Leave => Event::DropGuard {
                guard: word(alloc, b"g")?,
            },
            Step::ReclaimAll => Event::ReclaimAll,
            Step::Close => Event::Close,
            other => return of_call(alloc, other),
        })
    }
}

/// What an event comes to: a word, and the numbers that are told with it.
pub type Shown = (&'static str, u64, u64);

pub const DONE: Shown = ("done", 0, 0);

pub const SLOT: Shown = ("slot", 0, 0);

pub const ABSENT: Shown = ("absent", 0, 0);

pub const COMPLETED: Shown = ("completed", 0, 0);

pub const GOES: Shown = ("goes", 0, 0);

pub const READY: Shown = ("ready", 0, 0);

/// A call asks about no pair.
pub const ASKS_NONE: Shown = ("asks", 0, 0);

pub const NO_MEMORY: Shown = ("no memory", 0, 0);

pub const NOTHING_TO_REMOVE: Shown = ("nothing to remove", 0, 0);

/// Makes the answer of a lookup that found the pair with this number.
pub fn found(number: u64) -> Shown {
    ("found", number, 0)
}

fn refused(fault: Fault) -> Shown {
    match fault {
        Fault::Memory => NO_MEMORY,
        Fault::RemoveNothing => NOTHING_TO_REMOVE,
        other => ("refused", u64::from(other.number()), 0),
    }
}

fn answered(answer: &Response<u64>) -> Shown {
    match answer {
        Response::Absent => ABSENT,
        Response::Found(number) => found(*number),
        Response::Stored(number) => ("stored", *number, 0),
        Response::Occupied { there, value } => ("occupied", *there, *value),
        Response::Kept(number) => ("kept", *number, 0),
        Response::Inserted(number) => ("inserted", *number, 0),
        Response::Updated { old, new } => ("updated", *old, *new),
        Response::Removed(number) => ("removed", *number, 0),
        Response::Aborted(value) => ("aborted", *value, 0),
        Response::Completed => COMPLETED,
        Response::Counted(count) => ("counted", *count, 0),
    }
}

/// Returns what an event has come to, as its word and numbers.
pub fn shown(outcome: &Outcome<u64>) -> Shown {
    match outcome {
        Outcome::Done => DONE,
        Outcome::Slot(slot) => ("slot", *slot, 0),
        Outcome::Goes => GOES,
        Outcome::Asks(None) => ASKS_NONE,
        Outcome::Asks(Some(number)) => ("asks", *number, 0),
        Outcome::Waits => ("waits", 0, 0),
        Outcome::Ready => READY,
        Outcome::Shows(number) => ("shows", *number, 0),
        Outcome::Answered(answer) => answered(answer),
        Outcome::Shape(tables) => ("shape", tables.len() as u64, 0),
        Outcome::Refused(fault) => refused(*fault),
    }
}
