//! Why the program stops.
ghost use Rattle.std.specs.Prelude.{◌≡◌};
ghost use Rattle.program_fault.specs.Codes.{audit_code, code_of, config_code, handover_code, number_of};

use audit_fault::AuditFault;
use config_text::ConfigFault;
use inputs::InputFault;
use resharder::ReshardFault;
use smart_client::ClientFault;
use std::fmt;
use tool_io::{HandoverFault, ToolFault};

/// Why the program stops. It prints the code of the fault, and ends with status 1.
#[derive(Clone, Copy)]
pub enum ProgramFault {
    /// A file can't be read.
    UnreadableFile,
    /// An address can't be listened on.
    AddressInUse,
    /// There is no memory left.
    Memory,
    /// A node's thread can't be started.
    Thread,
    /// The output can't be written.
    Output,
    /// The file describes no cluster.
    Config(ConfigFault),
    /// The line of the script is no step. Lines are counted from 1.
    Script(u64),
    /// A call of the client got no reply to its command.
    Client(ClientFault),
    /// A run that moves slots could not go on.
    Reshard(ReshardFault),
    /// A replica isn't known to have taken the place of its master.
    Handover(HandoverFault),
    /// What the nodes of a cluster did isn't known to be a run of it.
    Audit(AuditFault),
}

impl ProgramFault {
    /// The code that is printed. Behind the code of a script stands the number of the line.
    pub fn code(self) -> &'static str
        ensures { result.now ≡ code_of self }
    {
        match self {
            ProgramFault::UnreadableFile => "F1",
            ProgramFault::AddressInUse => "F2",
            ProgramFault::Memory | ProgramFault::Thread => "F3",
            ProgramFault::Output => "F4",
            ProgramFault::Config(fault) => config_code(fault),
            ProgramFault::Script(_) => "S",
            ProgramFault::Client(fault) => fault.code(),
            ProgramFault::Reshard(fault) => fault.code(),
            ProgramFault::Handover(fault) => handover_code(fault),
            ProgramFault::Audit(fault) => audit_code(fault),
        }
    }

    // The number that stands behind the code.
    fn number(self) -> Option<u64>
        ensures { result ≡ number_of self }
    {
        match self {
            ProgramFault::Script(line) => Some(line),
            _ => None,
        }
    }

    /// Writes the code, with the number behind it if there is one.
    pub fn write_code<W: fmt::Write>(self, f: &mut fmt::Formatter<W>) -> fmt::Result {
        let code = self.code();
        match self.number() {
            Some(number) => write!(f, "{code}{number}"),
            None => write!(f, "{code}"),
        }
    }

    /// What the fault is, in words.
    pub fn meaning(self) -> &'static str {
        match self {
            ProgramFault::UnreadableFile => "a file can't be read",
            ProgramFault::AddressInUse => "an address can't be listened on",
            ProgramFault::Memory => "memory was refused",
            ProgramFault::Thread => "a node's thread can't be started",
            ProgramFault::Output => "the output can't be written",
            ProgramFault::Config(_) => "the file describes no cluster",
            ProgramFault::Script(_) => "a line of the script is no step",
            ProgramFault::Client(fault) => client_meaning(fault),
            ProgramFault::Reshard(fault) => reshard_meaning(fault),
            ProgramFault::Handover(fault) => handover_meaning(fault),
            ProgramFault::Audit(fault) => audit_meaning(fault),
        }
    }
}

impl From<InputFault> for ProgramFault {
    fn from(fault: InputFault) -> ProgramFault {
        match fault {
            InputFault::Unreadable => ProgramFault::UnreadableFile,
            InputFault::Config(fault) => ProgramFault::Config(fault),
            InputFault::Script(line) => ProgramFault::Script(line),
            InputFault::Memory => ProgramFault::Memory,
        }
    }
}

impl From<ToolFault> for ProgramFault {
    fn from(fault: ToolFault) -> ProgramFault {
        match fault {
            ToolFault::Memory => ProgramFault::Memory,
            ToolFault::Input => ProgramFault::UnreadableFile,
            ToolFault::Output => ProgramFault::Output,
            ToolFault::Client(fault) => ProgramFault::Client(fault),
            ToolFault::Reshard(fault) => ProgramFault::Reshard(fault),
            ToolFault::Handover(fault) => ProgramFault::Handover(fault),
        }
    }
}

fn client_meaning(fault: ClientFault) -> &'static str {
    match fault {
        ClientFault::Lost =>
            "the connection failed, and whether the command was executed is unknown",
        ClientFault::TooManyRedirects =>
            "the nodes redirected the command too often, and the command was not executed",
        ClientFault::StillTryAgain =>
            "the nodes answered TRYAGAIN too often, and the command was not executed",
        ClientFault::Memory => "memory was refused, and the command was not executed",
        ClientFault::NotConnected => "a node can't be reached, and the command was not executed",
        ClientFault::BadReply =>
            "a node sent a reply that no node gives, and whether the command was executed is unknown",
        ClientFault::NotData => "CLUSTER, MIGRATE and ASKING are no commands of a client",
    }
}

fn reshard_meaning(fault: ReshardFault) -> &'static str {
    match fault {
        ReshardFault::TooOften => "a node asked for the same again too often",
        ReshardFault::NotReached => "a node can't be reached, or the connection to it failed",
        ReshardFault::NotListed => "no master has this id",
        ReshardFault::BadReply => "a node refused, or its reply is none that a node gives there",
        ReshardFault::NoNextNumber => "no next number of a move is left",
        ReshardFault::Memory => "memory was refused",
    }
}

fn handover_meaning(fault: HandoverFault) -> &'static str {
    match fault {
        HandoverFault::NotFound => "no node with this id is found",
        HandoverFault::IsMaster => "the node is a master, and takes nobody's place",
        HandoverFault::SlotMoves => "a slot of the node's master is on the move",
        HandoverFault::NotInTime => "the node hasn't taken the place of its master in time",
        HandoverFault::NotReached => "a node can't be reached, or the connection to it failed",
        HandoverFault::BadReply => "a node sent a reply that no node gives there",
    }
}

fn audit_meaning(fault: AuditFault) -> &'static str {
    match fault {
        AuditFault::Stranger =>
            "the journals that were gathered aren't those of all nodes, so they aren't known to be a run of the cluster",
        AuditFault::Memory => "memory was refused while the journals of the nodes were gathered",
    }
}

fn handover_code(fault: HandoverFault) -> &'static str
    ensures { result.now ≡ handover_code fault }
{
    match fault {
        HandoverFault::NotFound => "H1",
        HandoverFault::IsMaster => "H2",
        HandoverFault::SlotMoves => "H3",
        HandoverFault::NotInTime => "H4",
        HandoverFault::NotReached => "H5",
        HandoverFault::BadReply => "H6",
    }
}

fn audit_code(fault: AuditFault) -> &'static str
    ensures { result.now ≡ audit_code fault }
{
    match fault {
        AuditFault::Stranger => "20",
        AuditFault::Memory => "21",
    }
}

fn config_code(fault: ConfigFault) -> &'static str
    ensures { result.now ≡ config_code fault }
{
    match fault {
        ConfigFault::Syntax => "K1",
        ConfigFault::Id => "K2",
        ConfigFault::Slots => "K3",
        ConfigFault::ReplicaOf => "K4",
        ConfigFault::Voters => "K5",
        ConfigFault::TooManyNodes => "K6",
        ConfigFault::Address => "K7",
        ConfigFault::Range => "K8",
        ConfigFault::Memory => "F3",
    }
}

impl fmt::Display for ProgramFault {
    fn fmt<W: fmt::Write>(&self, f: &mut fmt::Formatter<W>) -> fmt::Result {
        write!(f, "fault ")?;
        self.write_code(f)
    }
}
