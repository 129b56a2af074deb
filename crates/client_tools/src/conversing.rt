//! `rcluster cli --stdin`: the commands of standard input, one after another.

use crate::calling::execute;
use cli_text::{CommandFault, Commands};
use smart_client::{Client, Network};
use std::alloc::Global;
use std::cell::RefCell;
use std::io::Read;
use tool_io::{Seen, Style, ToolFailure, ToolFault, ToolRuntime, forget_refusals};

/// Has the client execute all commands of standard input, a line each, and prints each reply before the next line is read. Where a line is no
/// command, it gives a sentence that says so.
pub(crate) fn converse<R: ToolRuntime + Input, N: Network + Drop>(
    rt: &R,
    client: &mut Client<N>,
    style: Style,
    seen: &RefCell<Seen>,
) -> Result<Result<(), String>, ToolFailure> {
    let mut commands = Commands::new(rt.alloc(), rt.reader())?;
    let outcome = execute_lines(rt, &mut commands, client, style, seen);
    drop(commands);
    match outcome {
        Ok(()) => Ok(Ok(())),
        Err(End::Failure(failure)) => Err(failure),
        Err(End::Fault(fault)) => end_by(rt.alloc(), fault),
    }
}

// Why not all commands were executed.
#[derive(Drop)]
enum End {
    // One of them stopped the tool.
    Failure(ToolFailure),
    // The next one can't be read.
    Fault(CommandFault),
}

impl From<ToolFailure> for End {
    fn from(failure: ToolFailure) -> End {
        End::Failure(failure)
    }
}

impl From<CommandFault> for End {
    fn from(fault: CommandFault) -> End {
        End::Fault(fault)
    }
}

fn execute_lines<R: ToolRuntime, I: Read + Drop, N: Network + Drop>(
    rt: &R,
    commands: &mut Commands<I>,
    client: &mut Client<N>,
    style: Style,
    seen: &RefCell<Seen>,
) -> Result<(), End> {
    // A loop has to end, so this one counts the commands.
    'commands: for _ in 0..u64::MAX {
        let Some(words) = commands.next()? else {
            return Ok(());
        };
        forget_refusals(seen);
        execute(rt, client, words, style, seen)?;
    }
    Ok(())
}

fn end_by(alloc: Global, fault: CommandFault) -> Result<Result<(), String>, ToolFailure> {
    match fault {
        CommandFault::Line(number, why) => Ok(Err(format!(in alloc;
            "line {number} of standard input is no command, because {why}"
        )?)),
        CommandFault::Unreadable(error) => {
            let text = format!(in alloc; "standard input can't be read: {error}");
            Err(ToolFailure::new(ToolFault::Input, text))
        }
        CommandFault::Memory => Err(ToolFailure::from(ToolFault::Memory)),
    }
}
