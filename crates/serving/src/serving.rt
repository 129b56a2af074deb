//! `rcluster serve`: a cluster, on sockets.
ghost use Rattle.std.specs.Prelude.{◌≡◌, All, IfOk, length, map, vec_len};
ghost use Rattle.link_ends.specs.Ends.{AreLinkedFrom};
ghost use Rattle.tickets.specs.Tickets.{IsFresh, id_of};

use crate::recording::record;
use crate::stations::{ServeFault, serve_nodes};
use audit::{WorldRun, gather_stations};
use cluster::{Course, Hearing, NodeStop, Orders, Overseer, Runtime, Telling};
use cluster_config::Config;
use link_ends::{Act, LinkEnd, PortEnd, PortEnds, Shim, link_ports, link_shims};
use links::{Station, Web};
use node_cell::{Deployment, Journal, Log, Posted};
use node_places::Place;
use program_fault::{Failure, ProgramFault};
use serve_io::{
    Doors, Logging, host_of, listen_at, start_reading, tell_followers, warn_of_pace, warn_of_reach,
};
use std::alloc::AllocError;
use std::collections::VecDeque;
use std::marker::Brand;
use std::rt::Files;
use std::sync::{Arc, Wait};
use std::thread::Threads;
use tickets::{Seat, Table, open};

/// What serves: a runtime that also prints and reads its input.
// Files are no part of it, because threads get a server, and a file needn't be fit for another thread.
pub trait Server: Runtime + AllocGlobal + Input<Reader: Send> + Print + Eprint {}

impl<R: Runtime + AllocGlobal + Input<Reader: Send> + Print + Eprint> Server for R {}

/// What a bad network does to the messages of each link, in the order of the nodes that receive, and for each of these in the order of
/// those that send.
pub type Network = Vec<Vec<Act>>;

/// What may be wanted of a cluster that is served.
pub struct Wishes<'a> {
    /// Which nodes are stopped meanwhile.
    pub stops: &'a [NodeStop],
    /// How many threads of each node serve its clients in turn, or None where each client has a thread of its own.
    pub loops: Option<usize>,
    /// Where the nodes listen, apart from their addresses.
    pub doors: Doors<'a>,
    /// The path of the file that gets what the nodes did, or None where that is written nowhere.
    pub record: Option<&'a str>,
    /// Whether standard error is told what clients aren't told.
    pub is_logged: bool,
    /// How many ticks pass between two reports of how the nodes are, or None where nobody wants to know.
    pub status_ticks: Option<u64>,
    /// Whether orders are read from standard input.
    pub takes_orders: bool,
}

impl Drop for Wishes<'_> {
    fn drop(self) {
        let Wishes {
            stops: _,
            loops: _,
            doors: _,
            record: _,
            is_logged: _,
            status_ticks: _,
            takes_orders: _,
        } = self;
    }
}

impl<'a> Wishes<'a> {
    // Where the nodes listen.
    fn into_doors(self) -> Doors<'a> {
        let Wishes {
            stops: _,
            loops: _,
            doors,
            record: _,
            is_logged: _,
            status_ticks: _,
            takes_orders: _,
        } = self;
        doors
    }
}

// How the nodes are watched.
#[derive(Clone, Copy)]
struct Watching {
    // What standard error is told.
    hearing: Option<Hearing>,
    // Whether it is told at the beginning how the nodes are.
    is_logged: bool,
    // Whether orders are read from standard input.
    takes_orders: bool,
}

impl Wishes<'_> {
    // What standard error is told. Clients that are served in turn don't crowd.
    fn hearing(&self) -> Option<Hearing> {
        if self.is_logged {
            return Some(Hearing::All);
        }
        if self.takes_orders || self.status_ticks.is_some() {
            return Some(Hearing::Answers);
        }
        match self.loops {
            None => Some(Hearing::Advice),
            Some(_) => None,
        }
    }

    fn watching(&self) -> Watching {
        Watching {
            hearing: self.hearing(),
            is_logged: self.is_logged,
            takes_orders: self.takes_orders,
        }
    }

    // When it is told how the nodes are. A log begins with that.
    fn telling(&self) -> Telling {
        if let Some(ticks) = self.status_ticks {
            return Telling::Every(ticks);
        }
        match self.is_logged || self.takes_orders {
            true => Telling::WhenAsked,
            false => Telling::Never,
        }
    }
}

/// Serves the cluster for so many ticks of node 0. It prints the address of each node once all listen, and at the end how many steps the
/// nodes made, which together are a run of the cluster.
pub fn serve_for<R: Server + Files>(
    rt: R,
    config: &Config,
    ticks: u64,
    wishes: Wishes,
    network: Option<Network>,
) -> Result<(), Failure> {
    let (table, seats) = open(rt.alloc(), config.nodes().len() as u64)?;
    match network {
        None => run_for::<Brand, R>(rt, config, &table, seats, ticks, wishes),
        Some(network) => run_behind::<Brand, R>(rt, config, &table, seats, ticks, wishes, network),
    }
}

/// Serves the cluster for ever, with an `L` as the journal of each node. It prints the address of each node once all listen, and then
/// logs what no client is told, where that is wanted.
pub fn serve<L: Log + Drop + Send + 'static, R: Server>(
    rt: R,
    config: &Config,
    wishes: Wishes,
    network: Option<Network>,
) -> Result<(), Failure>
where
    L::Record: Send + 'static,
{
    let (table, seats) = open(rt.alloc(), config.nodes().len() as u64)?;
    match network {
        None => run_for_ever::<Brand, L, R>(rt, config, &table, seats, wishes),
        Some(network) => {
            run_behind_for_ever::<Brand, L, R>(rt, config, &table, seats, wishes, network)
        }
    }
}

// Links the nodes of the cluster, and runs them for so many ticks, each with one of the seats.
fn run_for<K: Deployment + Send + Sync + 'static, R: Server + Files>(
    rt: R,
    config: &Config,
    table: &Table,
    seats: Vec<Seat>,
    ticks: u64,
    wishes: Wishes,
) -> Result<(), Failure>
where
    requires cluster { config.now ≡ K.config }
    requires table { id_of table.now ≡ K.table }
    requires count { (vec_len seats ≡ K.seats) × (vec_len seats ≡ length config.now.nodes) }
    requires fresh { All (λ seat. IsFresh K.table K.seats seat) seats.items }
{
    let ends = link_ports::<Posted<K>, R>(rt.alloc(), rt, config.nodes().len())?;
    audit_for::<K, Brand, LinkEnd<Posted<K>, R>>(rt, config, table, seats, ends, ticks, wishes)
}

// The same, where a bad network does this to the messages between the nodes.
fn run_behind<K: Deployment + Send + Sync + 'static, R: Server + Files>(
    rt: R,
    config: &Config,
    table: &Table,
    seats: Vec<Seat>,
    ticks: u64,
    wishes: Wishes,
    network: Network,
) -> Result<(), Failure>
where
    requires cluster { config.now ≡ K.config }
    requires table { id_of table.now ≡ K.table }
    requires count { (vec_len seats ≡ K.seats) × (vec_len seats ≡ length config.now.nodes) }
    requires fresh { All (λ seat. IsFresh K.table K.seats seat) seats.items }
{
    let ends = link_shims::<Posted<K>, R>(rt.alloc(), rt, config.nodes().len(), network)?;
    audit_for::<K, Brand, Shim<LinkEnd<Posted<K>, R>>>(
        rt, config, table, seats, ends, ticks, wishes,
    )
}

// Runs the nodes for so many ticks, and gathers what they did.
fn audit_for<
    K: Deployment + Send + Sync + 'static,
    W: Web + Send + 'static,
    E: PortEnd<Carried = Posted<K>> + Send + 'static,
>(
    rt: E::Handle,
    config: &Config,
    table: &Table,
    seats: Vec<Seat>,
    ends: Vec<PortEnds<E>>,
    ticks: u64,
    wishes: Wishes,
) -> Result<(), Failure>
where
    E::Handle: Server + Files,
    requires cluster { config.now ≡ K.config }
    requires table { id_of table.now ≡ K.table }
    requires count { (vec_len seats ≡ K.seats) × (vec_len seats ≡ length config.now.nodes) }
    requires fresh { All (λ seat. IsFresh K.table K.seats seat) seats.items }
    requires ends { length ends.items ≡ length config.now.nodes }
    requires linked { AreLinkedFrom W.links (length config.now.nodes) 0 ends.items }
{
    let (is_logged, path) = (wishes.is_logged, wishes.record);
    let stations = run::<K, W, Journal, E>(rt, config, seats, ends, Some(ticks), wishes)?;
    if is_logged {
        tell_followers(&rt, stations.as_slice());
    }
    let run = gather_stations(rt.alloc(), table, stations)?;
    let told = tell_run(&rt, &run, path);
    drop(run);
    told
}

// Prints that the nodes made this run, which only gathering makes, and writes what they did where that is wanted.
fn tell_run<R: AllocGlobal + Files + Print>(
    rt: &R,
    run: &WorldRun,
    path: Option<&str>,
) -> Result<(), Failure> {
    if println!(rt; "audit ok {}", run.steps()).is_err() {
        return Err(Failure::from(ProgramFault::Output));
    }
    match path {
        Some(path) => record(rt, path, run),
        None => Ok(()),
    }
}

// Links the nodes of the cluster, and runs them for ever, each with one of the seats of the table.
fn run_for_ever<K: Deployment + Send + Sync + 'static, L: Log + Drop + Send + 'static, R: Server>(
    rt: R,
    config: &Config,
    _table: &Table,
    seats: Vec<Seat>,
    wishes: Wishes,
) -> Result<(), Failure>
where
    L::Record: Send + 'static,
    requires cluster { config.now ≡ K.config }
    requires table { id_of _table.now ≡ K.table }
    requires count { (vec_len seats ≡ K.seats) × (vec_len seats ≡ length config.now.nodes) }
    requires fresh { All (λ seat. IsFresh K.table K.seats seat) seats.items }
{
    let ends = link_ports::<Posted<K>, R>(rt.alloc(), rt, config.nodes().len())?;
    run_linked::<K, Brand, L, LinkEnd<Posted<K>, R>>(rt, config, seats, ends, wishes)
}

// The same, where a bad network does this to the messages between the nodes.
fn run_behind_for_ever<
    K: Deployment + Send + Sync + 'static,
    L: Log + Drop + Send + 'static,
    R: Server,
>(
    rt: R,
    config: &Config,
    _table: &Table,
    seats: Vec<Seat>,
    wishes: Wishes,
    network: Network,
) -> Result<(), Failure>
where
    L::Record: Send + 'static,
    requires cluster { config.now ≡ K.config }
    requires table { id_of _table.now ≡ K.table }
    requires count { (vec_len seats ≡ K.seats) × (vec_len seats ≡ length config.now.nodes) }
    requires fresh { All (λ seat. IsFresh K.table K.seats seat) seats.items }
{
    let ends = link_shims::<Posted<K>, R>(rt.alloc(), rt, config.nodes().len(), network)?;
    run_linked::<K, Brand, L, Shim<LinkEnd<Posted<K>, R>>>(rt, config, seats, ends, wishes)
}

fn run_linked<
    K: Deployment + Send + Sync + 'static,
    W: Web + Send + 'static,
    L: Log + Drop + Send + 'static,
    E: PortEnd<Carried = Posted<K>> + Send + 'static,
>(
    rt: E::Handle,
    config: &Config,
    seats: Vec<Seat>,
    ends: Vec<PortEnds<E>>,
    wishes: Wishes,
) -> Result<(), Failure>
where
    L::Record: Send + 'static,
    E::Handle: Server,
    requires cluster { config.now ≡ K.config }
    requires count { (vec_len seats ≡ K.seats) × (vec_len seats ≡ length config.now.nodes) }
    requires fresh { All (λ seat. IsFresh K.table K.seats seat) seats.items }
    requires ends { length ends.items ≡ length config.now.nodes }
    requires linked { AreLinkedFrom W.links (length config.now.nodes) 0 ends.items }
{
    let _stations = run::<K, W, L, E>(rt, config, seats, ends, None, wishes)?;
    Ok(())
}

// Runs the nodes of the cluster, each with one of the seats and its ends of the links.
fn run<
    K: Deployment + Send + Sync + 'static,
    W: Web + Send + 'static,
    L: Log + Drop + Send + 'static,
    E: PortEnd<Carried = Posted<K>> + Send + 'static,
>(
    rt: E::Handle,
    config: &Config,
    seats: Vec<Seat>,
    ends: Vec<PortEnds<E>>,
    ticks: Option<u64>,
    wishes: Wishes,
) -> Result<Vec<Station<K, W, L, E>>, Failure>
where
    L::Record: Send + 'static,
    E::Handle: Server,
    requires cluster { config.now ≡ K.config }
    requires count { (vec_len seats ≡ K.seats) × (vec_len seats ≡ length config.now.nodes) }
    requires fresh { All (λ seat. IsFresh K.table K.seats seat) seats.items }
    requires ends { length ends.items ≡ length config.now.nodes }
    requires linked { AreLinkedFrom W.links (length config.now.nodes) 0 ends.items }
{
    let course = Course {
        ticks,
        stops: wishes.stops,
        loops: wishes.loops,
        telling: wishes.telling(),
    };
    let watching = wishes.watching();
    let host = wishes.doors.host;
    let places = listen::<K, E>(&rt, config, seats, ends, wishes.into_doors())?;
    let watch = match begin_watch(rt, config, host, watching) {
        Ok(watch) => watch,
        Err(failure) => {
            drop(places);
            return Err(failure);
        }
    };
    let served = serve_nodes::<K, W, L, E>(rt, rt.alloc(), config, places, course, &watch.overseer);
    watch.end(&rt);
    match served {
        Ok(stations) => Ok(stations),
        Err(fault) => Err(failure_of(fault)),
    }
}

fn failure_of(fault: ServeFault) -> Failure {
    Failure::from(match fault {
        ServeFault::Memory => ProgramFault::Memory,
        ServeFault::Thread | ServeFault::Mixed => ProgramFault::Thread,
    })
}

// What standard error is told of the nodes, and what is ordered of them.
struct Watch {
    logging: Logging,
    overseer: Overseer,
}

impl Watch {
    // Ends the log, once all of it is written.
    fn end<R: Threads + Wait>(self, rt: &R) {
        let Watch { logging, overseer } = self;
        drop(overseer);
        logging.end(rt);
    }
}

impl Drop for Watch {
    fn drop(self) {
        let Watch {
            logging: _,
            overseer: _,
        } = self;
    }
}

// Prints the addresses of the nodes, which listen, and begins to watch them.
fn begin_watch<R: Server>(
    rt: R,
    config: &Config,
    host: Option<&str>,
    watching: Watching,
) -> Result<Watch, Failure> {
    print_addresses(&rt, config, host)?;
    let logging = Logging::begin(rt, watching.hearing)?;
    let overseer = overseer_of(&rt, config, &logging)?;
    let watch = Watch { logging, overseer };
    if watching.is_logged {
        watch.overseer.orders.ask();
    }
    if watching.takes_orders {
        start_reading(rt, &watch.overseer.orders, config.nodes().len())?;
    }
    Ok(watch)
}

// What the log sees of the nodes, and what is ordered of them.
fn overseer_of<R: AllocGlobal>(
    rt: &R,
    config: &Config,
    logging: &Logging,
) -> Result<Overseer, Failure> {
    let orders = Orders::new(rt.alloc(), config.nodes().len())?;
    Ok(Overseer {
        witness: Arc::try_clone(&logging.witness)?,
        orders: Arc::new(rt.alloc(), orders).map_err(AllocError::from)?,
    })
}

// Listens at the address of each node, and gives each node a seat and its ends of the links.
fn listen<K: Deployment, E: PortEnd<Carried = Posted<K>>>(
    rt: &E::Handle,
    config: &Config,
    mut seats: Vec<Seat>,
    ends: Vec<PortEnds<E>>,
    doors: Doors,
) -> Result<Vec<Place<E>>, Failure>
where
    E::Handle: Server,
    requires count { vec_len seats ≡ length config.now.nodes }
    requires fresh { All (λ seat. IsFresh K.table K.seats seat) seats.items }
    requires ends { length ends.items ≡ length config.now.nodes }
    ensures count { IfOk result (λ places. vec_len places ≡ vec_len seats) }
    ensures fresh { IfOk result
        (λ places. All (λ place. IsFresh K.table K.seats place.seat) places.items) }
    ensures ends { IfOk result (λ places. map (λ place. place.ends) places.items ≡ ends.items) }
{
    let host = doors.host;
    let mut all_ends = VecDeque::from(ends);
    let mut open = VecDeque::from(doors.into_open());
    let mut places = Vec::with_capacity(rt.alloc(), seats.len())?;
    for (number, node) in config.nodes().iter().enumerate() {
        let listener = listen_at(rt, number, node, open.pop_front(), host)?;
        let seat = seats.pop().unwrap();
        let ends = all_ends.pop_front().unwrap();
        let place = Place {
            seat,
            ends,
            listener,
        };
        places.push(place).map_err(AllocError::from)?;
    }
    Ok(places)
}

// Prints the address of each node, and what may surprise.
fn print_addresses<R: Print + Eprint>(
    rt: &R,
    config: &Config,
    host: Option<&str>,
) -> Result<(), Failure> {
    for (number, node) in config.nodes().iter().enumerate() {
        if println!(rt; "node {number} {}:{}", host_of(node), node.port).is_err() {
            return Err(Failure::from(ProgramFault::Output));
        }
    }
    warn_of_reach(rt, config, host);
    warn_of_pace(rt, config);
    Ok(())
}
