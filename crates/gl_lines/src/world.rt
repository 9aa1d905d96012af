//! The first line of a schedule, with which a service begins.

ghost use Rattle.std.specs.Prelude.{◌≡◌};
ghost use Rattle.gl_base.specs.Answers.{Answers};
ghost use Rattle.gl_lines.specs.Parts.{bytes_of};
ghost use Rattle.gl_lines.specs.Parsing.{number_within, settings_read, state_of, world_of, world_read};

use crate::fault::LineFault;
use crate::names::seed_of;
use crate::numbers::counted_number;
use crate::split::words_of;
use gl_base::OrNoMemory;
use std::alloc::Global;

/// How many nodes may start.
const STARTING_LIMIT: u8 = 9;

/// How many nodes may join.
const JOINERS_LIMIT: u8 = 9;

/// How many members may govern the service.
const MEMBERS_LIMIT: u8 = 64;

/// The first line of a schedule: a service that begins.
#[derive(Clone, Copy, Debug)]
pub struct WorldLine {
    /// How many nodes start, from 1 to 9.
    pub starting: u8,
    /// How many nodes may join later, at most 9.
    pub joiners: u8,
    /// How many members govern the service, from 1 to 64.
    pub members: u8,
    /// Whether the service begins open; else it begins opening.
    pub is_open: bool,
    /// All keys of the service come from this seed.
    pub seed: [u8; 32],
}

/// A number from one to another.
#[tactic(auto, unfolding(crate::specs::Parsing::number_within))]
fn number_within(least: u8, most: u8, word: &[u8]) -> Result<u8, LineFault>
    ensures { result ≡ number_within least most word.now }
{
    match counted_number(word) {
        Ok(number) if u128::from(least) <= number && number <= u128::from(most) => {
            Ok(number as u8)
        }
        _ => Err(LineFault::NoReading),
    }
}

fn state_of(word: &[u8]) -> Result<bool, LineFault>
    ensures { result ≡ state_of word.now }
{
    if word == b"open".as_slice() {
        Ok(true)
    } else if word == b"opening".as_slice() {
        Ok(false)
    } else {
        Err(LineFault::NoReading)
    }
}

#[tactic(auto, unfolding(crate::specs::Parsing::settings_read))]
fn settings_read(
    starting: &[u8],
    joiners: &[u8],
    members: &[u8],
    state: &[u8],
    seed: &[u8],
) -> Result<WorldLine, LineFault>
    ensures { result ≡ settings_read starting.now joiners.now members.now state.now seed.now }
{
    let starting = number_within(1, STARTING_LIMIT, starting)?;
    let joiners = number_within(0, JOINERS_LIMIT, joiners)?;
    let members = number_within(1, MEMBERS_LIMIT, members)?;
    let is_open = state_of(state)?;
    let seed = seed_of(seed)?;
    Ok(WorldLine {
        starting,
        joiners,
        members,
        is_open,
        seed,
    })
}

#[tactic(auto, unfolding(crate::specs::Parsing::world_read))]
fn world_read(words: &[&[u8]]) -> Result<WorldLine, LineFault>
    ensures { result ≡ world_read (bytes_of words.now) }
{
    match words {
        [world, starting, joiners, members, state, seed] if *world == b"world".as_slice() => {
            settings_read(starting, joiners, members, state, seed)
        }
        _ => Err(LineFault::NoReading),
    }
}

/// What the first line says.
#[tactic(auto, unfolding(crate::specs::Parsing::world_of))]
pub(crate) fn world_of(alloc: Global, line: &[u8]) -> Result<WorldLine, OrNoMemory<LineFault>>
    ensures { Answers (λ x. x) result (world_of line.now) }
{
    let words = words_of(alloc, line)?;
    Ok(world_read(&words)?)
}
