//! Tests of maps that threads share: they are made, handed on, looked through, pairs are stored and removed there, and a call sleeps while
//! another one copies.
#![tactic(auto)]

#[cfg(test)]
mod asking;
#[cfg(test)]
mod opening;
#[cfg(test)]
mod passing;
#[cfg(test)]
mod removing;
#[cfg(test)]
mod resting;
#[cfg(test)]
mod storing;
#[cfg(test)]
mod waiting;
