//! A cluster that plays a script.
ghost use Rattle.std.specs.Prelude.{IfOk};
ghost use Rattle.simulator.specs.Playing.{EndsBy, streams};
ghost use Rattle.simulator.specs.Simulation.{Simulates};

use crate::fault::{ScriptFault, SimulationFault};
use crate::incoming::read_whole;
use crate::printing::print_outputs;
use crate::script::read_script;
use cluster_config::Config;
use final_answers::answers_tell_what_became_of_commands;
use resp2::Counting;
use std::alloc::{AllocError, Global};
use std::io::{Read, Write};
use world::{Step, World};

/// Reads a script to its end, plays it in a cluster that begins, and writes what comes out of it, all at once where the writer takes it.
pub fn simulate<R: Read, W: Write>(
    alloc: Global,
    config: &Config,
    script: &mut Counting<R>,
    out: &mut Counting<W>,
) -> Result<(), SimulationFault>
    ensures { EndsBy config.now result (streams R.remaining script.old script.new)
        (streams W.contents out.old out.new) }
{
    let text = read_whole(alloc, script)?;
    let steps = match read_script(alloc, text.as_slice()) {
        Ok(steps) => steps,
        Err(ScriptFault::Memory) => return Err(SimulationFault::Memory),
        Err(ScriptFault::Line(number)) => return Err(SimulationFault::Line { number, text }),
    };
    let printed = play(alloc, config, steps.as_slice())?;
    match out.write_all(printed.as_slice()) {
        Ok(()) => Ok(()),
        Err(error) => Err(SimulationFault::Unwritten(error)),
    }
}

// Plays the steps in a cluster that begins, and prints what comes out of it.
fn play(alloc: Global, config: &Config, steps: &[Step]) -> Result<Vec<u8>, AllocError>
    ensures { IfOk result (λ printed. Simulates config.now steps.now printed.items) }
{
    // Both are for the proof alone: the law of answers, and that the configuration is a cluster's.
    answers_tell_what_became_of_commands();
    let _nodes = config.nodes();
    let mut world = World::new(alloc, config)?;
    let outputs = world.run(steps)?;
    let mut printed = Vec::new(alloc);
    print_outputs(outputs.as_slice(), &mut printed)?;
    Ok(printed)
}
