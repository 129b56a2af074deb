//! The verbs of the command line, and what stands behind each.

use crate::masters::{LAST_PORT, MOST_NODES, MOST_REPLICAS};

/// How often a call begins again for TRYAGAIN where nothing is said.
pub const FEW_TRIES: u64 = 100;

const MOST_TRIES: u64 = 1_000_000;

/// How often a run that moves slots asks the same again where nothing is said.
pub const FEW_REPETITIONS: u64 = 1000;

const MOST_REPETITIONS: u64 = 1_000_000;

/// For how many seconds a run that hands over waits where nothing is said.
pub const FEW_SECONDS: u64 = 30;

const MOST_SECONDS: u64 = 1_000_000;

/// After how many ticks at most the program may be asked to end, and a node to stop.
pub const MOST_TICKS: u64 = 1_000_000;

// How many threads of a node may serve its clients in turn.
const MOST_LOOPS: u64 = 8;

/// The port of the first master where nothing is said.
pub const FIRST_PORT: u64 = 7000;

/// The first word of a command line, which says what the program is asked to do.
pub struct Verb {
    pub name: &'static str,
    /// What the program does then, for its help.
    pub about: &'static str,
    /// What stands behind the verb, in the order of its help.
    pub arguments: &'static [Argument],
    /// What its help says at the end.
    pub after: After,
}

/// What the help of a verb says at the end.
pub enum After {
    /// This text: how the program ends.
    Text(&'static str),
    /// The steps of a script, and behind them how the program ends.
    Steps,
}

/// An option of a verb, or the words that stand behind all options.
pub struct Argument {
    pub name: &'static str,
    /// What the help calls a value of it. A flag has none.
    pub value_name: &'static str,
    pub help: &'static str,
    pub kind: Kind,
}

/// What an argument takes.
pub enum Kind {
    /// A text, which has to be there.
    Text,
    /// A text, beside which the option of this name can't be. One of both has to be there.
    TextOr(&'static str),
    /// A text. The option may be missing.
    MaybeText,
    /// The same, beside the option of this name alone.
    TextBeside(&'static str),
    /// A text. The option may be there several times, or not at all.
    Texts,
    /// A number from `least` to `most`.
    Number {
        least: u64,
        most: u64,
    },
    /// The same, beside the one option and not beside the other.
    NumberBeside {
        one: &'static str,
        other: &'static str,
        least: u64,
        most: u64,
    },
    /// Nothing: it is there or not.
    Flag,
    /// One word or more, with no name in front, or in place of them the flag of this name.
    WordsOr(&'static str),
}

/// The verbs, in the order of the help.
pub static VERBS: [Verb; 5] = [
    Verb {
        name: "serve",
        about: "Serves all nodes of a cluster, each at its own address",
        arguments: &[
            CONFIG_OR_MASTERS,
            MASTERS,
            REPLICAS,
            PORT,
            LISTEN,
            BACKLOG,
            CHECK,
            TICKS,
            STOP,
            LOOPS,
            NETWORK,
            JOURNAL,
            RECORD,
            LOG,
            STATUS,
            ORDERS,
        ],
        after: After::Text(AFTER_SERVE),
    },
    Verb {
        name: "simulate",
        about: "Plays a script in a cluster without sockets, and prints what comes out of each step",
        arguments: &[CONFIG, SCRIPT],
        after: After::Steps,
    },
    Verb {
        name: "cli",
        about: "Has the node of a command's keys execute the command, and prints the reply; with --stdin, does so for each line of standard input",
        arguments: &[ADDRESS, TRIES, TEXT, STDIN, WORDS],
        after: After::Text(AFTER_CLI),
    },
    Verb {
        name: "reshard",
        about: "Moves slots from one master to another, and prints a line for each slot",
        arguments: &[ADDRESS, FROM, TO, SLOTS, LIMIT],
        after: After::Text(AFTER_RESHARD),
    },
    Verb {
        name: "failover",
        about: "Has a replica take the place of its master, which hands its slots over, and prints a line",
        arguments: &[REPLICA_ADDRESS, REPLICA, WAIT],
        after: After::Text(AFTER_FAILOVER),
    },
];

const CONFIG: Argument = Argument {
    name: "config",
    value_name: "FILE",
    help: "The cluster's configuration, a JSON file",
    kind: Kind::Text,
};

const CONFIG_OR_MASTERS: Argument = Argument {
    name: "config",
    value_name: "FILE",
    help: "The cluster's configuration, a JSON file; without it --masters is wanted",
    kind: Kind::TextOr("masters"),
};

const MASTERS: Argument = Argument {
    name: "masters",
    value_name: "M",
    help: "Serves M masters without a file, 1 to 16, which share the slots evenly; the hosts are 127.0.0.1",
    kind: Kind::Number {
        least: 1,
        most: MOST_NODES,
    },
};

const REPLICAS: Argument = Argument {
    name: "replicas",
    value_name: "R",
    help: "How many replicas each of these masters has, 0 if missing, 16 nodes in all; they follow their masters' writes, answer MOVED, and where three masters or more vote one takes the place of a master that stops",
    kind: Kind::NumberBeside {
        one: "masters",
        other: "config",
        least: 0,
        most: MOST_REPLICAS,
    },
};

const PORT: Argument = Argument {
    name: "port",
    value_name: "P",
    help: "The port of the first of these masters, from which those of the other masters and of the replicas rise; 7000 if missing. With 0 each node gets a port that is free, and its line says which",
    kind: Kind::NumberBeside {
        one: "masters",
        other: "config",
        least: 0,
        most: LAST_PORT,
    },
};

const LISTEN: Argument = Argument {
    name: "listen",
    value_name: "HOST",
    help: "The host at which all nodes listen, as 0.0.0.0 in a container, while they tell clients the hosts of the configuration; if missing, each listens at its own",
    kind: Kind::MaybeText,
};

const BACKLOG: Argument = Argument {
    name: "backlog",
    value_name: "N",
    help: "How many of the last bytes of its stream of writes each of these nodes keeps, 1 to 16777216; if missing, 16777216 where there are replicas, else 1048576",
    // The configuration has the bounds, and its fault tells them.
    kind: Kind::NumberBeside {
        one: "masters",
        other: "config",
        least: 0,
        most: u64::MAX,
    },
};

const CHECK: Argument = Argument {
    name: "check",
    value_name: "",
    help: "Checks the configuration and serves nobody: prints nothing where it is right, else what serving prints; no port is opened",
    kind: Kind::Flag,
};

const TICKS: Argument = Argument {
    name: "ticks",
    value_name: "N",
    help: "Ends after N ticks of node 0, 1 to 1000000; each node's journal is kept in memory until then, and checked",
    kind: Kind::Number {
        least: 1,
        most: MOST_TICKS,
    },
};

const STOP: Argument = Argument {
    name: "stop",
    value_name: "N@TICKS",
    help: "Stops node N, counted from 0, after TICKS ticks of its own, 1 to 1000000, as if it were gone, while the others are served on; may be there several times",
    kind: Kind::Texts,
};

const LOOPS: Argument = Argument {
    name: "loops",
    value_name: "N",
    help: "Has N threads of each node serve all of its clients in turn, 1 to 8; if missing, each client has a thread of its own, and these wait for each other at the node. 2 serve many clients better, above all clients with pipelines on a busy host",
    kind: Kind::Number {
        least: 1,
        most: MOST_LOOPS,
    },
};

const NETWORK: Argument = Argument {
    name: "network",
    value_name: "FILE",
    help: "Loses, repeats and holds back messages between the nodes, as the file says, or made up from numbers: seed=N,lose=5%,repeat=5%,hold=5%",
    kind: Kind::MaybeText,
};

const JOURNAL: Argument = Argument {
    name: "journal",
    value_name: "",
    help: "Keeps each node's journal in memory, which grows with every request",
    kind: Kind::Flag,
};

const RECORD: Argument = Argument {
    name: "record",
    value_name: "FILE",
    help: "Writes to the file what the nodes did until the end of --ticks: a line a step, with the reason for each reply",
    kind: Kind::TextBeside("ticks"),
};

const LOG: Argument = Argument {
    name: "log",
    value_name: "",
    help: "Tells on standard error how the nodes are at the beginning, of each client that can't be served, and why, of each slot that arrives at a node or leaves it, of each master that hands over, of each node that is promoted or stopped, and of what --network does, behind the seconds since the beginning",
    kind: Kind::Flag,
};

const STATUS: Argument = Argument {
    name: "status",
    value_name: "N",
    help: "Tells on standard error how each node is, after each N ticks, 1 to 1000000: whom it copies, its slots, keys and clients, the bytes of its stream of writes, and how many of them a replica lacks",
    kind: Kind::Number {
        least: 1,
        most: MOST_TICKS,
    },
};

const ORDERS: Argument = Argument {
    name: "orders",
    value_name: "",
    help: "Reads orders from standard input, one a line: `stop N` stops node N, as if it were gone, and `status` has standard error told how the nodes are; they are followed at the next tick, and the end of the input changes nothing",
    kind: Kind::Flag,
};

const SCRIPT: Argument = Argument {
    name: "script",
    value_name: "FILE",
    help: "The script, one step a line",
    kind: Kind::Text,
};

const ADDRESS: Argument = Argument {
    name: "addr",
    value_name: "HOST:PORT",
    help: "The node to begin with",
    kind: Kind::Text,
};

const TRIES: Argument = Argument {
    name: "try",
    value_name: "N",
    help: "How often the call begins again for TRYAGAIN, 0 to 1000000, 100 if missing; then it ends with C3",
    kind: Kind::Number {
        least: 0,
        most: MOST_TRIES,
    },
};

const TEXT: Argument = Argument {
    name: "text",
    value_name: "",
    help: "Prints replies as redis-cli prints them on a terminal, as (integer) 3 or \"foo\"; if missing, each is printed as its bytes, on one line",
    kind: Kind::Flag,
};

const STDIN: Argument = Argument {
    name: "stdin",
    value_name: "",
    help: "Reads commands from standard input, one a line, with quotes as redis-cli reads them",
    kind: Kind::Flag,
};

const WORDS: Argument = Argument {
    name: "words",
    value_name: "WORDS",
    help: "The command; words that begin with - stand behind --",
    kind: Kind::WordsOr("stdin"),
};

const FROM: Argument = Argument {
    name: "from",
    value_name: "ID|NUMBER",
    help: "The master that the slots leave: its id, or a number from 0 to 15, which stands for the id that has it in hexadecimal digits behind zeros",
    kind: Kind::Text,
};

const TO: Argument = Argument {
    name: "to",
    value_name: "ID|NUMBER",
    help: "The master that they come to, in the same way",
    kind: Kind::Text,
};

const SLOTS: Argument = Argument {
    name: "slots",
    value_name: "A-B",
    help: "The slots from A to B, each from 0 to 16383; or one slot alone, as 5",
    kind: Kind::Text,
};

const LIMIT: Argument = Argument {
    name: "limit",
    value_name: "N",
    help: "How often a node is asked the same again, 0 to 1000000, 1000 if missing; then the run ends with V1",
    kind: Kind::Number {
        least: 0,
        most: MOST_REPETITIONS,
    },
};

const REPLICA_ADDRESS: Argument = Argument {
    name: "addr",
    value_name: "HOST:PORT",
    help: "The replica; or any node, where the ids of nodes are their numbers and the ports rise with them, as in a cluster without a file",
    kind: Kind::Text,
};

const REPLICA: Argument = Argument {
    name: "node",
    value_name: "ID|NUMBER",
    help: "The replica: its id, or a number from 0 to 15, which stands for the id that has it in hexadecimal digits behind zeros",
    kind: Kind::Text,
};

const WAIT: Argument = Argument {
    name: "wait",
    value_name: "SECONDS",
    help: "For how long the run waits, 0 to 1000000, 30 if missing; then it ends with H4, and the replica goes on to ask its master",
    kind: Kind::Number {
        least: 0,
        most: MOST_SECONDS,
    },
};

/// What the help of the program says at the end.
pub const AFTER: &str = "\
Exit status:\n  \
0  what was asked is done\n  \
1  a fault: standard output gets its code, as `fault C5`, and standard error a sentence\n  \
2  an argument is wrong or missing\n\
The help of each verb lists its codes.";

const AFTER_SERVE: &str = "\
Exit status:\n  \
0  the ticks of --ticks are over, or --check found no fault\n  \
1  a fault, whose code is printed as `fault K3`\n  \
2  an argument is wrong or missing\n\n\
Codes:\n  \
F1  the file can't be read\n  \
K1  it is no JSON text, or a member is missing, strange or of the wrong kind\n  \
K2  an id isn't 40 lowercase hexadecimal digits, or the ids don't rise\n  \
K3  a range of slots is none, or a slot is listed twice\n  \
K4  replica_of names no master\n  \
K5  there is no node or no voter, or a voter is unknown or listed twice\n  \
K6  there are more than 16 nodes\n  \
K7  an address stands twice\n  \
K8  a time, a port or the backlog is out of its range\n  \
F2  an address can't be listened on\n  \
F3  memory was refused, or a thread can't be started\n  \
F4  the output can't be written, and so this code isn't either\n  \
20  after --ticks: what the nodes did isn't a run of the cluster\n  \
21  after --ticks: memory was refused while it was checked";

/// What the help of `simulate` says at the end, behind the steps of a script.
pub const AFTER_SIMULATE: &str = "\
Exit status:\n  \
0  the script was played\n  \
1  a fault, whose code is printed as `fault S3`\n  \
2  an argument is wrong or missing\n\n\
Codes:\n  \
F1        a file can't be read\n  \
K1 to K8  the configuration describes no cluster; the help of serve lists them\n  \
S and N   line N of the script, from 1 on, is no step; nothing was played\n  \
F3        memory was refused\n  \
F4        the output can't be written, and so this code isn't either";

const AFTER_CLI: &str = "\
Words of a line are separated by blanks. In double quotes \\n \\r \\t \\b \\a \\\" \\\\ and \\xHH are one byte, in single quotes \\' is.\n\
A line is read once the one before it is answered. An empty line is passed over.\n\n\
Exit status:\n  \
0  there is a reply to each command, which may be an error reply\n  \
1  a fault, whose code is printed as `fault C5`; of the lines of standard input, those before it were answered\n  \
2  an argument is wrong or missing, or a line of standard input is no command; those before it were answered\n\n\
Codes:\n  \
F1  standard input can't be read\n  \
C1  the connection failed: whether the command was executed is unknown\n  \
C2  the command was redirected too often, and was not executed\n  \
C3  the nodes answered TRYAGAIN too often, and the command was not executed\n  \
C4  memory was refused, and the command was not executed\n  \
C5  a node can't be reached, and the command was not executed\n  \
C6  a node answered as none does; standard error says whether the command was not executed, or whether that is unknown\n  \
C7  CLUSTER, MIGRATE and ASKING are not sent\n  \
F3  memory was refused before anything of the command was sent\n  \
F4  the output can't be written, and so this code isn't either";

const AFTER_RESHARD: &str = "\
Where standard error is a terminal, it tells meanwhile how many slots are done.\n\
Where the run waits for three seconds, it tells for what, and again as that wait becomes longer.\n\n\
Exit status:\n  \
0  all slots are at their new master\n  \
1  a fault, whose code is printed as `fault V1`; the same words may be given again\n  \
2  an argument is wrong or missing\n\n\
Codes:\n  \
V1  a node was asked the same again as often as --limit allows\n  \
V2  a node can't be reached, the connection to it failed, or no master with slots has one of the ids\n  \
V3  a node refused, as where the slot belongs to neither master, or no next number of a move is left\n  \
F3  memory was refused\n  \
F4  the output can't be written, and so this code isn't either";

const AFTER_FAILOVER: &str = "\
Each master is asked first whether a slot of it is on the move: a master with such a slot hands nothing over.\n\
Where the run waits for three seconds, it tells for what, and again as that wait becomes longer.\n\n\
Exit status:\n  \
0  the replica has the slots of its master, and the nodes know of it\n  \
1  a fault, whose code is printed as `fault H1`\n  \
2  an argument is wrong or missing\n\n\
Codes:\n  \
H1  no node of the id is found from the address\n  \
H2  the node is a master\n  \
H3  a slot of the node's master is on the move, and the node was not asked\n  \
H4  the node was asked, and hasn't taken the place in time; it goes on to ask its master\n  \
H5  a node can't be reached, or the connection to it failed\n  \
H6  a node answered as none does\n  \
F3  memory was refused\n  \
F4  the output can't be written, and so this code isn't either";
