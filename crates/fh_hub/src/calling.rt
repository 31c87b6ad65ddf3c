// The hub makes steps.
ghost use Rattle.fh_hub.specs.Hub.{faults_of};
ghost use Rattle.fh_hub.specs.Made.{Made};
ghost use Rattle.fh_hub.specs.MadeLaws.{nothing_made, joined};

use crate::caller::Caller;
use crate::hub::Hub;
use fh_disk::Disk;
use fh_event::{Command, Reply, StepFault};
use std::alloc::Global;

impl<'d, J: Disk> Caller for Hub<'d, J> {
    ghost call_faults = { λ hub. faults_of hub };

    ghost made = { λ old turns new. Made old turns new };

    ghost stays = { λ hub. nothing_made hub };

    ghost joins = { λ x y z first later one two. joined x y z first later one two };

    #[tactic(auto, using(crate::proofs::OneTurn::one_turn))]
    fn call(&mut self, alloc: Global, command: &Command, now: u64) -> Result<Reply, StepFault> {
        self.step(alloc, command, now)
    }
}
