//! The command line.

use crate::masters::Masters;
use crate::source::Source;
use crate::verbs::{
    AFTER, After, Argument, FEW_REPETITIONS, FEW_SECONDS, FEW_TRIES, FIRST_PORT, Kind, VERBS, Verb,
};
use clap::builder::ValueParser;
use clap::{Arg, ArgAction, ArgMatches, Command, Error};
use std::alloc::{AllocError, Global};
use tool_io::Style;

// Of the program.
const VERSION: &str = "0.1.0";

/// What the program is asked to do.
#[derive(Drop)]
pub enum Call<'a> {
    /// To serve a cluster.
    Serve(Service<'a>),
    /// To have a cluster execute commands.
    Cli {
        /// The address of the node to begin with.
        address: &'a str,
        /// How often the call may begin again for TRYAGAIN.
        tries: u64,
        /// How replies are printed.
        style: Style,
        /// The words of the command. Without words commands are read from standard input.
        words: Vec<&'a str>,
    },
    /// To move slots from one master to another.
    Reshard(Resharding<'a>),
    /// To have a replica take the place of its master.
    Failover(Failover<'a>),
    /// To play a script in a cluster that a file describes.
    Simulate {
        /// The path of the cluster's file.
        config: &'a str,
        /// The path of the script.
        script: &'a str,
    },
}

/// A cluster that is to be served, as the words say it.
pub struct Service<'a> {
    /// Where its nodes are told, or None where the words don't say it.
    pub source: Option<Source<'a>>,
    /// Whether the program checks the configuration, and serves nobody.
    pub only_checks: bool,
    /// After how many ticks of the first node the program ends, or None where it goes on.
    pub ticks: Option<u64>,
    /// Which nodes are stopped meanwhile, each as the node and its ticks.
    pub stops: Vec<&'a str>,
    /// How many threads of each node serve its clients in turn, or None where each client has a thread of its own.
    pub loops: Option<u64>,
    /// What becomes of the messages between its nodes: the path of a file that says it, or numbers from which it is made up. None is that
    /// each comes once and in order.
    pub network: Option<&'a str>,
    /// The host at which all nodes listen, or None where each listens at its own.
    pub host: Option<&'a str>,
    /// Whether each node keeps its journal in memory.
    pub records_journal: bool,
    /// The path of the file that gets what the nodes did, or None where that is written nowhere.
    pub record: Option<&'a str>,
    /// Whether standard error is told what clients aren't told.
    pub is_logged: bool,
    /// How many ticks pass between two reports of how the nodes are, or None where nobody wants to know.
    pub status_ticks: Option<u64>,
    /// Whether orders are read from standard input.
    pub takes_orders: bool,
}

impl Drop for Service<'_> {
    fn drop(self) {
        let Service {
            source: _,
            only_checks: _,
            ticks: _,
            stops: _,
            loops: _,
            network: _,
            host: _,
            records_journal: _,
            record: _,
            is_logged: _,
            status_ticks: _,
            takes_orders: _,
        } = self;
    }
}

/// Slots that are to be moved, as the words say it.
#[derive(Clone, Copy)]
pub struct Resharding<'a> {
    /// The address of the node that is asked who the masters are.
    pub address: &'a str,
    /// The master that the slots leave, as its id or its number.
    pub from: &'a str,
    /// The master that they come to, in the same way.
    pub to: &'a str,
    /// The slots, as the first and the last one, or as one alone.
    pub slots: &'a str,
    /// How often a node may be asked the same again.
    pub limit: u64,
}

/// A replica that is to take the place of its master, as the words say it.
#[derive(Clone, Copy)]
pub struct Failover<'a> {
    /// The address of the node that the run begins with.
    pub address: &'a str,
    /// The replica, as its id or its number.
    pub node: &'a str,
    /// For how many seconds the run may wait.
    pub seconds: u64,
}

/// Reads the words of a command line, the program's name first. The other text is what the help of `simulate` says at its end.
pub fn read_call<'a>(
    alloc: Global,
    words: &'a [String],
    script_help: &'a str,
) -> Result<Call<'a>, Error> {
    let command = program(alloc, script_help)?;
    let matches = command.try_get_matches_from(words)?;
    call_of(alloc, &matches)
}

fn program<'a>(alloc: Global, script_help: &'a str) -> Result<Command<'a>, AllocError> {
    let commands = commands_of(alloc, &VERBS, script_help)?;
    Command::new(alloc, "rcluster")
        .about("A Redis Cluster in one process")
        .version(VERSION)
        .after_help(AFTER)
        .subcommand_required(true)
        .arg_required_else_help(true)
        .subcommands(commands)
}

fn commands_of<'a>(
    alloc: Global,
    verbs: &[Verb],
    script_help: &'a str,
) -> Result<Vec<Command<'a>>, AllocError> {
    let mut commands = Vec::with_capacity(alloc, verbs.len())?;
    for verb in verbs {
        let command = command_of(alloc, verb, script_help)?;
        commands.push(command).map_err(AllocError::from)?;
    }
    Ok(commands)
}

fn command_of<'a>(
    alloc: Global,
    verb: &Verb,
    script_help: &'a str,
) -> Result<Command<'a>, AllocError> {
    let after = match verb.after {
        After::Text(text) => text,
        After::Steps => script_help,
    };
    let mut command = Command::new(alloc, verb.name)
        .about(verb.about)
        .after_help(after);
    for argument in verb.arguments {
        command = command.arg(arg_of(alloc, argument)?)?;
    }
    Ok(command)
}

fn arg_of<'a>(alloc: Global, argument: &Argument) -> Result<Arg<'a>, AllocError> {
    match &argument.kind {
        Kind::Text => Ok(option_of(alloc, argument).required(true)),
        // That one of both is there is looked at behind the parse, which would ask for both.
        Kind::TextOr(other) => option_of(alloc, argument).conflicts_with(*other),
        Kind::MaybeText => Ok(option_of(alloc, argument)),
        Kind::TextBeside(other) => option_of(alloc, argument).requires_arg(*other),
        Kind::Texts => Ok(option_of(alloc, argument).action(ArgAction::Append)),
        Kind::Number { least, most } => Ok(number_of(alloc, argument, *least, *most)),
        Kind::NumberBeside {
            one,
            other,
            least,
            most,
        } => number_of(alloc, argument, *least, *most)
            .requires_arg(*one)?
            .conflicts_with(*other),
        Kind::Flag => Ok(
            Arg::new(alloc, argument.name)
                .long(argument.name)
                .help(argument.help)
                .action(ArgAction::SetTrue),
        ),
        Kind::WordsOr(flag) => Arg::new(alloc, argument.name)
            .value_name(argument.value_name)
            .help(argument.help)
            .num_args(1..)
            .action(ArgAction::Append)
            .conflicts_with(*flag)?
            .required_unless_present(*flag),
    }
}

// An option with a number as its value.
fn number_of<'a>(alloc: Global, argument: &Argument, least: u64, most: u64) -> Arg<'a> {
    option_of(alloc, argument).value_parser(ValueParser::unsigned(least, most))
}

// An option with a value.
fn option_of<'a>(alloc: Global, argument: &Argument) -> Arg<'a> {
    Arg::new(alloc, argument.name)
        .long(argument.name)
        .value_name(argument.value_name)
        .help(argument.help)
        .action(ArgAction::Set)
}

fn call_of<'a>(alloc: Global, matches: &ArgMatches<'a>) -> Result<Call<'a>, Error> {
    if let Some(simulate) = matches.subcommand_matches("simulate") {
        return Ok(simulate_call(simulate));
    }
    if let Some(cli) = matches.subcommand_matches("cli") {
        return Ok(cli_call(alloc, cli)?);
    }
    if let Some(reshard) = matches.subcommand_matches("reshard") {
        return Ok(reshard_call(reshard));
    }
    if let Some(failover) = matches.subcommand_matches("failover") {
        return Ok(failover_call(failover));
    }
    Ok(serve_call(alloc, matches.subcommand_matches("serve"))?)
}

fn serve_call<'a>(alloc: Global, serve: Option<&ArgMatches<'a>>) -> Result<Call<'a>, AllocError> {
    match serve {
        Some(serve) => Ok(Call::Serve(Service {
            source: source_of(serve),
            only_checks: serve.get_flag("check"),
            ticks: serve.get_one::<u64>("ticks"),
            stops: texts(alloc, serve, "stop")?,
            loops: serve.get_one::<u64>("loops"),
            network: serve.get_str("network"),
            host: serve.get_str("listen"),
            records_journal: serve.get_flag("journal"),
            record: serve.get_str("record"),
            is_logged: serve.get_flag("log"),
            status_ticks: serve.get_one::<u64>("status"),
            takes_orders: serve.get_flag("orders"),
        })),
        // The command line has a verb, and it is none of the others.
        None => Ok(Call::Serve(Service {
            source: None,
            only_checks: false,
            ticks: None,
            stops: Vec::new(alloc),
            loops: None,
            network: None,
            host: None,
            records_journal: false,
            record: None,
            is_logged: false,
            status_ticks: None,
            takes_orders: false,
        })),
    }
}

// One of the two options at most is there.
fn source_of<'a>(serve: &ArgMatches<'a>) -> Option<Source<'a>> {
    match serve.get_one::<u64>("masters") {
        Some(count) => Some(Source::Masters(Masters {
            count,
            replicas: serve.get_one::<u64>("replicas").unwrap_or(0),
            first_port: serve.get_one::<u64>("port").unwrap_or(FIRST_PORT),
            backlog: serve.get_one::<u64>("backlog"),
        })),
        None => Some(Source::File(serve.get_str("config")?)),
    }
}

fn simulate_call<'a>(simulate: &ArgMatches<'a>) -> Call<'a> {
    Call::Simulate {
        config: text(simulate, "config"),
        script: text(simulate, "script"),
    }
}

fn cli_call<'a>(alloc: Global, cli: &ArgMatches<'a>) -> Result<Call<'a>, AllocError> {
    Ok(Call::Cli {
        address: text(cli, "addr"),
        tries: cli.get_one::<u64>("try").unwrap_or(FEW_TRIES),
        style: style_of(cli),
        words: texts(alloc, cli, "words")?,
    })
}

fn style_of(cli: &ArgMatches) -> Style {
    if cli.get_flag("text") {
        Style::Text
    } else {
        Style::Bytes
    }
}

fn reshard_call<'a>(reshard: &ArgMatches<'a>) -> Call<'a> {
    Call::Reshard(Resharding {
        address: text(reshard, "addr"),
        from: text(reshard, "from"),
        to: text(reshard, "to"),
        slots: text(reshard, "slots"),
        limit: reshard.get_one::<u64>("limit").unwrap_or(FEW_REPETITIONS),
    })
}

fn failover_call<'a>(failover: &ArgMatches<'a>) -> Call<'a> {
    Call::Failover(Failover {
        address: text(failover, "addr"),
        node: text(failover, "node"),
        seconds: failover.get_one::<u64>("wait").unwrap_or(FEW_SECONDS),
    })
}

// All texts of an option, or of the words behind the options.
fn texts<'a>(
    alloc: Global,
    matches: &ArgMatches<'a>,
    name: &str,
) -> Result<Vec<&'a str>, AllocError> {
    let mut texts = Vec::new(alloc);
    texts.extend_from_slice(matches.get_strs(name).unwrap_or(&[]))?;
    Ok(texts)
}

// The text of an option that has to be there.
fn text<'a>(matches: &ArgMatches<'a>, name: &str) -> &'a str {
    matches.get_str(name).unwrap_or("")
}
