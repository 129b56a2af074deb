//! The nodes of a world and its clients, and what is done to them.
ghost use Rattle.std.specs.Prelude.{◌≡◌, ◌≤◌, ◌++◌, map, length, insert, IfOk, IfSome, IfNone, OnOk, None, Some, All};
ghost use Rattle.std.specs.List.{flat_map};
ghost use Rattle.world_nodes.specs.Nodes.{GoesOn, is_up};
ghost use Rattle.world.specs.Asking.{KeepsRule};
ghost use Rattle.world.specs.Clients.{IsPlaceFor, IsSettled, StandsAt, client_at, lost_at, place_of, stopped_at, with_client};
ghost use Rattle.world.specs.Plays.{Plays};
ghost use Rattle.world.specs.View.{IsWhole, first_scene};
ghost use Rattle.world.specs.declared.step.Step.TheVariants as step;

use crate::client::Client;
use crate::step::Step;
use cluster_config::Config;
use resp_values::Words;
use std::alloc::{AllocError, Global};
use std::marker::Model;
use world_nodes::{Output, Run, nothing};

/// The nodes of a cluster, and its clients by rising number.
#[derive(Drop)]
pub(crate) struct Scene {
    alloc: Global,
    config: Config,
    run: Run,
    clients: Vec<Client>,
}

impl Model for Scene {
    ghost use Rattle.node_step.specs.CodedState.{coded_state};
    ghost use Rattle.std.specs.Coded.{codes};
    ghost use Rattle.world.specs.View.{SceneView};

    ghost Value = { SceneView };

    ghost coded = { Prim.hlevel (codes, coded_state) };

    ghost view = { λ scene.
        record { config = scene.config; run = scene.run; clients = scene.clients.items } };
}

impl Scene {
    /// The nodes as they begin, and no client.
    pub(crate) fn new(alloc: Global, config: &Config) -> Result<Scene, AllocError>
        ensures { IfOk result (λ scene. scene ≡ first_scene config.now) }
    {
        Ok(Scene {
            alloc,
            run: Run::new(alloc, config)?,
            config: config.clone()?,
            clients: Vec::new(alloc),
        })
    }

    /// The configuration of the cluster.
    pub(crate) fn config(&self) -> &Config
        ensures { result.now ≡ self.now.config }
    {
        &self.config
    }

    /// Makes a step. Where memory is refused, steps of nodes may have been made for it.
    pub(crate) fn play(&mut self, step: &Step) -> Result<Vec<Output>, AllocError>
        requires whole { IsWhole self.old }
        requires rule { KeepsRule self.old }
        ensures config { self.new.config ≡ self.old.config }
        ensures goes_on { GoesOn self.old.run self.new.run }
        ensures whole { OnOk result (IsWhole self.new) }
        ensures plays { IfOk result (λ out. Plays self.old step.now out.items self.new) }
    {
        match step {
            Step::Call { client, words } => self.call(*client, words),
            Step::Carry { client } => self.carry(*client),
            Step::Return { client } => self.take_reply(*client),
            Step::Cut { client } => self.cut(*client),
            Step::Late { client } => self.come_late(*client),
            Step::Admin { node, words } => self.run.admin(*node, words),
            Step::Tick { node } => self.run.tick(*node),
            Step::Stop { node } => self.stop(*node),
            Step::Deliver { message } => self.run.deliver(*message),
        }
    }

    fn call(&mut self, number: u64, words: &Words) -> Result<Vec<Output>, AllocError>
        requires { IsWhole self.old }
        ensures config { self.new.config ≡ self.old.config }
        ensures goes_on { GoesOn self.old.run self.new.run }
        ensures whole { OnOk result (IsWhole self.new) }
        ensures plays { IfOk result
            (λ out. Plays self.old (step.Call number words.now) out.items self.new) }
    {
        let place = self.begin(number)?;
        self.clients[place].call(&mut self.run, &self.config, words)
    }

    fn carry(&mut self, number: u64) -> Result<Vec<Output>, AllocError>
        requires whole { IsWhole self.old }
        requires rule { KeepsRule self.old }
        ensures config { self.new.config ≡ self.old.config }
        ensures goes_on { GoesOn self.old.run self.new.run }
        ensures whole { OnOk result (IsWhole self.new) }
        ensures plays { IfOk result (λ out. Plays self.old (step.Carry number) out.items self.new) }
    {
        let Some(place) = self.place_of(number) else {
            return nothing(self.alloc);
        };
        self.clients[place].carry(&mut self.run)
    }

    fn take_reply(&mut self, number: u64) -> Result<Vec<Output>, AllocError>
        requires { IsWhole self.old }
        ensures config { self.new.config ≡ self.old.config }
        ensures goes_on { GoesOn self.old.run self.new.run }
        ensures whole { OnOk result (IsWhole self.new) }
        ensures plays { IfOk result
            (λ out. Plays self.old (step.Return number) out.items self.new) }
    {
        let Some(place) = self.place_of(number) else {
            return nothing(self.alloc);
        };
        self.clients[place].take_reply(&mut self.run, &self.config)
    }

    fn cut(&mut self, number: u64) -> Result<Vec<Output>, AllocError>
        requires { IsWhole self.old }
        ensures config { self.new.config ≡ self.old.config }
        ensures goes_on { GoesOn self.old.run self.new.run }
        ensures whole { OnOk result (IsWhole self.new) }
        ensures plays { IfOk result (λ out. Plays self.old (step.Cut number) out.items self.new) }
    {
        let Some(place) = self.place_of(number) else {
            return nothing(self.alloc);
        };
        self.clients[place].cut(&mut self.run)
    }

    fn come_late(&mut self, number: u64) -> Result<Vec<Output>, AllocError>
        requires whole { IsWhole self.old }
        requires rule { KeepsRule self.old }
        ensures config { self.new.config ≡ self.old.config }
        ensures goes_on { GoesOn self.old.run self.new.run }
        ensures whole { OnOk result (IsWhole self.new) }
        ensures plays { IfOk result (λ out. Plays self.old (step.Late number) out.items self.new) }
    {
        let Some(place) = self.place_of(number) else {
            return nothing(self.alloc);
        };
        self.clients[place].come_late(&mut self.run)
    }

    fn stop(&mut self, node: u64) -> Result<Vec<Output>, AllocError>
        requires { IsWhole self.old }
        ensures config { self.new.config ≡ self.old.config }
        ensures goes_on { GoesOn self.old.run self.new.run }
        ensures whole { OnOk result (IsWhole self.new) }
        ensures plays { IfOk result (λ out. Plays self.old (step.Stop node) out.items self.new) }
    {
        if !self.run.is_up(node) {
            return nothing(self.alloc);
        }
        self.run.stop(node);
        let mut outputs = Vec::new(self.alloc);
        stop_all(&mut self.clients, node, &mut outputs)?;
        Ok(outputs)
    }

    // The place of the client with that number, if it began.
    fn place_of(&self, number: u64) -> Option<usize>
        ensures place { IfSome result
            (IsPlaceFor number self.now.clients (length self.now.clients)) }
        ensures found { IfSome result (StandsAt number self.now.clients) }
        ensures none { IfNone result (client_at number self.now.clients ≡ None) }
    {
        let place = place_for(self.clients.as_slice(), number);
        let client = self.clients.get(place)?;
        if client.number() == number {
            Some(place)
        } else {
            None
        }
    }

    // The place of the client with that number, which begins if it didn't yet.
    fn begin(&mut self, number: u64) -> Result<usize, AllocError>
        requires { All IsSettled self.old.clients }
        ensures run { self.new ≡ record self.old { clients = self.new.clients } }
        ensures clients { OnOk result
            (self.new.clients ≡ with_client self.old.config number self.old.clients) }
        ensures settled { OnOk result (All IsSettled self.new.clients) }
        ensures place { IfOk result (IsPlaceFor number self.old.clients (length self.new.clients)) }
    {
        if let Some(place) = self.place_of(number) {
            return Ok(place);
        }
        let place = place_for(self.clients.as_slice(), number);
        let client = Client::new(self.alloc, &self.config, number)?;
        self.clients.insert(place, client)?;
        Ok(place)
    }
}

// The place of the first client whose number isn't below.
fn place_for(clients: &[Client], number: u64) -> usize
    ensures place { result ≡ place_of number clients.now }
    ensures within { result ≤ length clients.now }
{
    clients
        .iter()
        .position(|client| client.number() >= number)
        .unwrap_or(clients.len())
}

// The connections of all clients to the node break.
fn stop_all(
    clients: &mut Vec<Client>,
    node: u64,
    outputs: &mut Vec<Output>,
) -> Result<(), AllocError>
    requires { All IsSettled clients.old.items }
    ensures settled { OnOk result (All IsSettled clients.new.items) }
    ensures clients { OnOk result (clients.new.items ≡ map (stopped_at node) clients.old.items) }
    ensures outputs { OnOk result
        (outputs.new.items ≡ outputs.old.items ++ flat_map (lost_at node) clients.old.items) }
{
    for at in 0..clients.len() {
        clients[at].stop(node, outputs)?;
    }
    Ok(())
}
