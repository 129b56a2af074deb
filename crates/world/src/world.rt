//! A world of nodes.
ghost use Rattle.std.specs.Prelude.{◌≡◌, true, false, IfOk, OnOk, OnErr};
ghost use Rattle.promoted_prefix.specs.Law.{PromotionsGoOn};
ghost use Rattle.world_run.specs.Executed.{AreOfOneKeyspace, executed};
ghost use Rattle.world_run.specs.Law.{HasOneMasterAnEpoch};
ghost use Rattle.world_run.specs.Promotions.{until_promotion};
ghost use Rattle.world_nodes.specs.Nodes.{GoesOn};
ghost use Rattle.world.specs.Plays.{Plays, PlaysAll};
ghost use Rattle.world.specs.Reached.{IsReached};
ghost use Rattle.world.specs.View.{first_world};

use crate::scene::Scene;
use crate::step::Step;
use cluster_config::Config;
use one_master::no_epoch_has_two_masters;
use promoted_prefix::promoted_nodes_go_on;
use single_keyspace::replies_are_those_of_one_keyspace;
use std::alloc::{AllocError, Global};
use std::marker::Model;
use world_nodes::Output;

/// The nodes of a cluster in one process with its clients, each message that nodes ever sent, and, for proofs alone, all that
/// they did.
///
/// Once memory is refused, what was done before stays done, and each later call is refused.
#[derive(Drop)]
pub struct World {
    alloc: Global,
    scene: Scene,
    is_refused: bool,
}

impl Model for World {
    ghost use Rattle.node_step.specs.CodedState.{coded_state};
    ghost use Rattle.std.specs.Coded.{codes};
    ghost use Rattle.world.specs.Reached.{IsReached};
    ghost use Rattle.world.specs.View.{WorldView};

    ghost Value = { WorldView };

    ghost coded = { Prim.hlevel (codes, coded_state) };

    ghost view = { λ world. record { scene = world.scene; refused = world.is_refused } };

    ghost invariant = { λ world.
        IsReached (record { scene = world.scene; refused = world.is_refused }) };
}

impl World {
    /// The cluster as it begins.
    #[tactic(auto, using(crate::proofs::Worlds::first_reached))]
    pub fn new(alloc: Global, config: &Config) -> Result<World, AllocError>
        ensures { IfOk result (λ world. world ≡ first_world config.now) }
    {
        let _nodes = config.nodes();
        Ok(World {
            alloc,
            scene: Scene::new(alloc, config)?,
            is_refused: false,
        })
    }

    /// The configuration of the cluster.
    pub fn config(&self) -> &Config
        ensures config { result.now ≡ self.now.scene.config }
        ensures reached { IsReached self.now }
    {
        self.scene.config()
    }

    /// Makes a step.
    pub fn step(&mut self, step: Step) -> Result<Vec<Output>, AllocError>
        ensures config { self.new.scene.config ≡ self.old.scene.config }
        ensures goes_on { GoesOn self.old.scene.run self.new.scene.run }
        ensures one_keyspace { AreOfOneKeyspace
            (executed (until_promotion self.new.scene.run.entries)) }
        ensures one_master { HasOneMasterAnEpoch self.new.scene.config.voters self.new.scene.run.entries }
        ensures promoted_prefix { PromotionsGoOn self.new.scene.config self.new.scene.run.entries }
        ensures plays { IfOk result (λ out. Plays self.old.scene step out.items self.new.scene) }
        ensures ok { OnOk result ((self.old.refused ≡ false) × (self.new.refused ≡ false)) }
        ensures err { OnErr result (self.new.refused ≡ true) }
        ensures refused { self.old.refused ≡ true → self.new ≡ self.old }
    {
        let outputs = self.play(&step);
        self.obeys_laws();
        outputs
    }

    /// Makes steps, one after another.
    pub fn run(&mut self, steps: &[Step]) -> Result<Vec<Output>, AllocError>
        ensures config { self.new.scene.config ≡ self.old.scene.config }
        ensures goes_on { GoesOn self.old.scene.run self.new.scene.run }
        ensures one_keyspace { AreOfOneKeyspace
            (executed (until_promotion self.new.scene.run.entries)) }
        ensures one_master { HasOneMasterAnEpoch self.new.scene.config.voters self.new.scene.run.entries }
        ensures promoted_prefix { PromotionsGoOn self.new.scene.config self.new.scene.run.entries }
        ensures plays { IfOk result
            (λ out. PlaysAll self.old.scene steps.now out.items self.new.scene) }
        ensures ok { OnOk result ((self.old.refused ≡ false) × (self.new.refused ≡ false)) }
        ensures err { OnErr result (self.new.refused ≡ true) }
        ensures refused { self.old.refused ≡ true → self.new ≡ self.old }
    {
        let outputs = self.play_all(steps);
        self.obeys_laws();
        outputs
    }

    fn play_all(&mut self, steps: &[Step]) -> Result<Vec<Output>, AllocError>
        ensures config { self.new.scene.config ≡ self.old.scene.config }
        ensures goes_on { GoesOn self.old.scene.run self.new.scene.run }
        ensures plays { IfOk result
            (λ out. PlaysAll self.old.scene steps.now out.items self.new.scene) }
        ensures ok { OnOk result ((self.old.refused ≡ false) × (self.new.refused ≡ false)) }
        ensures err { OnErr result (self.new.refused ≡ true) }
        ensures refused { self.old.refused ≡ true → self.new ≡ self.old }
    {
        if self.is_refused {
            return Err(AllocError);
        }
        let mut outputs = Vec::new(self.alloc);
        for step in steps {
            let mut shown = self.play(step)?;
            let Ok(()) = outputs.append(&mut shown) else {
                return Err(self.refuse());
            };
        }
        Ok(outputs)
    }

    fn play(&mut self, step: &Step) -> Result<Vec<Output>, AllocError>
        ensures config { self.new.scene.config ≡ self.old.scene.config }
        ensures goes_on { GoesOn self.old.scene.run self.new.scene.run }
        ensures plays { IfOk result
            (λ out. Plays self.old.scene step.now out.items self.new.scene) }
        ensures ok { OnOk result ((self.old.refused ≡ false) × (self.new.refused ≡ false)) }
        ensures err { OnErr result (self.new.refused ≡ true) }
        ensures refused { self.old.refused ≡ true → self.new ≡ self.old }
    {
        if self.is_refused {
            return Err(AllocError);
        }
        match self.scene.play(step) {
            Ok(outputs) => Ok(outputs),
            Err(refused) => {
                self.is_refused = true;
                Err(refused)
            }
        }
    }

    // From now on no step is made.
    fn refuse(&mut self) -> AllocError
        ensures { self.new ≡ record self.old { refused = true } }
    {
        self.is_refused = true;
        AllocError
    }

    // What nodes and clients did obeys the laws of all runs.
    fn obeys_laws(&self)
        ensures one_keyspace { AreOfOneKeyspace
            (executed (until_promotion self.now.scene.run.entries)) }
        ensures one_master { HasOneMasterAnEpoch self.now.scene.config.voters self.now.scene.run.entries }
        ensures promoted_prefix { PromotionsGoOn self.now.scene.config self.now.scene.run.entries }
    {
        let _config = self.scene.config();
        replies_are_those_of_one_keyspace();
        no_epoch_has_two_masters();
        promoted_nodes_go_on();
    }
}
