//! What a bad network does, made up from a number.

use crate::fault::ActsFault;
use crate::text::no_acts;
use command_table::count_in;
use link_ends::Act;
use rand_core::Rng;
use rand_pcg::Pcg32;
use std::alloc::{AllocError, Global};

// How many messages of a link have acts where nothing is said.
const FEW_ACTS: u64 = 10_000;

const MOST_ACTS: u64 = 1_000_000;

// How many times more than once a message comes at most.
const MOST_REPEATS: u32 = 3;

// For how many others a message is held at most.
const MOST_HELD: u32 = 8;

/// How likely each act is, in percent. What is left is passed.
#[derive(Clone, Copy)]
struct Chances {
    seed: u64,
    lose: u32,
    repeat: u32,
    hold: u32,
    acts: u64,
}

/// What a part of the text is about.
#[derive(Clone, Copy)]
enum Part {
    Seed,
    Lose,
    Repeat,
    Hold,
    Acts,
}

impl Part {
    fn named(name: &str) -> Option<Part> {
        match name {
            "seed" => Some(Part::Seed),
            "lose" => Some(Part::Lose),
            "repeat" => Some(Part::Repeat),
            "hold" => Some(Part::Hold),
            "acts" => Some(Part::Acts),
            _ => None,
        }
    }
}

/// Whether the text tells chances, and not the path of a file: it begins with the name of one of their parts, or ends with a percentage.
pub fn is_by_chance(text: &str) -> bool {
    match text.split_once('=') {
        Some((name, _)) if Part::named(name).is_some() => true,
        _ => text.ends_with('%'),
    }
}

/// Acts for the links of so many nodes, made up from `seed=N,lose=5%,repeat=5%,hold=5%,acts=N`. Each part may be missing: then the seed is 0,
/// nothing is lost, repeated or held, and 10,000 messages of each link have acts. The same text gives the same acts.
pub fn chance_acts(alloc: Global, text: &str, nodes: usize) -> Result<Vec<Vec<Act>>, ActsFault> {
    let Some(chances) = chances_in(text) else {
        return Err(ActsFault::NoChances);
    };
    let mut all = no_acts(alloc, nodes)?;
    for (link, acts) in all.iter_mut().enumerate() {
        // Each link has numbers of its own.
        let mut numbers = Pcg32::new(chances.seed, link as u64);
        make_up(chances, &mut numbers, acts)?;
    }
    Ok(all)
}

fn make_up(chances: Chances, numbers: &mut Pcg32, acts: &mut Vec<Act>) -> Result<(), AllocError> {
    for _ in 0..chances.acts {
        acts.push(next_act(chances, numbers))
            .map_err(AllocError::from)?;
    }
    Ok(())
}

fn next_act(chances: Chances, numbers: &mut Pcg32) -> Act {
    let drawn = numbers.next_u32() % 100;
    let much = numbers.next_u32();
    let lost = chances.lose;
    let repeated = lost.saturating_add(chances.repeat);
    let held = repeated.saturating_add(chances.hold);
    match drawn {
        _ if drawn < lost => Act::Lose,
        _ if drawn < repeated => Act::Repeat(1 + much % MOST_REPEATS),
        _ if drawn < held => Act::Hold(1 + much % MOST_HELD),
        _ => Act::Pass,
    }
}

fn chances_in(text: &str) -> Option<Chances> {
    let mut chances = Chances {
        seed: 0,
        lose: 0,
        repeat: 0,
        hold: 0,
        acts: FEW_ACTS,
    };
    for part in text.split(',') {
        take(part, &mut chances)?;
    }
    let all = chances
        .lose
        .saturating_add(chances.repeat)
        .saturating_add(chances.hold);
    if all > 100 || chances.acts > MOST_ACTS {
        return None;
    }
    Some(chances)
}

fn take(part: &str, chances: &mut Chances) -> Option<()> {
    let (name, value) = part.split_once('=')?;
    match Part::named(name)? {
        Part::Seed => chances.seed = count_in(value.as_bytes())?,
        Part::Lose => chances.lose = percent_in(value)?,
        Part::Repeat => chances.repeat = percent_in(value)?,
        Part::Hold => chances.hold = percent_in(value)?,
        Part::Acts => chances.acts = count_in(value.as_bytes())?,
    }
    Some(())
}

// A number from 0 to 100, with its sign behind it.
fn percent_in(value: &str) -> Option<u32> {
    let number = count_in(value.strip_suffix('%')?.as_bytes())?;
    if number > 100 {
        return None;
    }
    Some(number as u32)
}
