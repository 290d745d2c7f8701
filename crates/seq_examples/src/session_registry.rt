//! Keeps sessions by their tokens: lines open one, end one, end all that have lasted long enough, or ask whose one is. Last comes all, as JSON.
ghost use Rattle.std.specs.Prelude.{IfOk};
ghost use Rattle.seq_examples.specs.Sessions.{AllLast, IsGone};

use papaya_seq::{Fault, HashMap, Text, ToJson};
use std::alloc::Global;
use std::io;

/// Whose a session is, and until when it lasts.
#[derive(Drop)]
struct Session {
    owner: Text,
    until: u64,
}

/// The sessions by their tokens.
type Sessions = HashMap<Text, Session>;

/// Opens a session, in the place of the one with this token, if there is one.
fn open(sessions: &mut Sessions, token: Text, owner: Text, until: u64) -> Result<(), Fault> {
    sessions.insert(token, Session { owner, until })?;
    Ok(())
}

/// Ends the session with this token, and tells whether there was one.
fn end(sessions: &mut Sessions, token: &str) -> Result<bool, Fault>
    ensures gone { IfOk result (λ _. IsGone token.now sessions.new.pairs) }
{
    Ok(sessions.remove(&token)?.is_some())
}

/// Ends all sessions that don't last past this moment, and tells how many are left.
fn expire(sessions: &mut Sessions, now: u64) -> Result<u64, Fault>
    ensures last { IfOk result (λ _. AllLast now sessions.new.pairs) }
{
    sessions.retain(|_, session| session.until > now)?;
    Ok(sessions.len())
}

/// Who has which session, as JSON.
fn snapshot(sessions: &Sessions, alloc: Global) -> Result<String, Fault> {
    let mut owners = HashMap::<Text, Text>::new(alloc)?;
    for (token, session) in sessions {
        owners.insert(token.clone()?, session.owner.clone()?)?;
    }
    Ok(owners.to_value(alloc)?.to_string(alloc)?)
}

/// The moment that a word says.
fn moment(word: &str) -> io::Result<u64> {
    word.parse::<u64>()
        .map_err(|_| io::Error::other("a moment is a number"))
}

/// Prints whose the session with this token is.
fn tell<R: Print>(rt: &R, sessions: &Sessions, token: &str) -> io::Result<()> {
    match sessions.get(&token) {
        Some(session) => println!(rt; "{token} is of {}", session.owner),
        None => println!(rt; "{token} is nobody's"),
    }
}

/// Does what a line says, and prints what it came to.
fn obey<R: Print>(rt: &R, alloc: Global, sessions: &mut Sessions, line: &str) -> io::Result<()> {
    let words: Vec<&str> = line.split_whitespace().collect(alloc)?;
    match *words {
        ["open", token, owner, until] => {
            let (key, whose) = (Text::new(alloc, token)?, Text::new(alloc, owner)?);
            open(sessions, key, whose, moment(until)?)?;
            println!(rt; "{owner} has {token}")
        }
        ["end", token] => println!(rt; "ended: {}", end(sessions, token)?),
        ["expire", now] => println!(rt; "{} are left", expire(sessions, moment(now)?)?),
        ["whose", token] => tell(rt, sessions, token),
        _ => Err(io::Error::other("open TOKEN OWNER UNTIL, end TOKEN, expire NOW, whose TOKEN")),
    }
}

/// Does what these lines say, and prints who has which session then.
pub(crate) fn run<R: Print>(rt: &R, alloc: Global, lines: &[String]) -> io::Result<()> {
    let mut sessions = Sessions::new(alloc)?;
    for line in lines {
        obey(rt, alloc, &mut sessions, line.as_str())?;
    }
    println!(rt; "{}", snapshot(&sessions, alloc)?)
}
