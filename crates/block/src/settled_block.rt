// A settled block, and its timing.
ghost use Rattle.std.specs.Prelude.{◌≡◌, ◌≤◌, vec_len, None};
ghost use Rattle.paths.specs.Blocks.{max_nets};
ghost use Rattle.paths.specs.Cycles.{CycleAt};
ghost use Rattle.paths.specs.Facts.{TimingFacts};
ghost use Rattle.network.specs.Calls.{draft_block};
ghost use Rattle.network.specs.Settling.{network_block, Settled};
ghost use Rattle.timing.specs.Timed.{areas};
ghost use Rattle.block.specs.Calls.{CycleFirst};
ghost use Rattle.block.specs.Faults.{refusal_of};

use crate::faults::{BlockFault, TimeFault};
use models::delay_model::DelayModel;
use network::draft::Draft;
use network::settled::Network;
use timing::answers::{Answer, SignalRecord};
use timing::circuit::Circuit;
use timing::timer;
use units::senses::Sense;

#[derive(Drop)]
pub struct SettledBlock {
    network: Network,
    mark: u32,
}

impl SettledBlock {
    // Settles a draft under a mark; never refuses.
    pub fn settle(draft: Draft, mark: u32) -> SettledBlock
        ensures mark { result.mark ≡ mark }
        ensures settled { Settled (draft_block draft) result.network }
    {
        SettledBlock {
            network: draft.settle(),
            mark,
        }
    }

    // The mark that the block was settled under.
    pub fn mark(&self) -> u32
        ensures { result ≡ self.now.mark }
    {
        self.mark
    }

    // How many nets the block has.
    pub fn net_count(&self) -> usize
        ensures value { result ≡ vec_len self.now.network.netlist.nets }
        ensures few { result ≤ max_nets }
    {
        self.network.nets().len()
    }

    // Times the block by a model in one sense, into four areas: signals, required times, slacks and path.
    pub fn time<M: DelayModel, S: Sense + Drop>(
        &self,
        model: &M,
        _sense: S,
        signals: &mut [SignalRecord],
        required: &mut [i32],
        slacks: &mut [i32],
        path: &mut [u16],
    ) -> Result<Answer, TimeFault>
        ensures cyclic { CycleFirst refusal_of (network_block self.now.network) result ((areas signals.new required.new slacks.new path.new) ≡ (areas signals.old required.old slacks.old path.old)) }
        ensures facts { CycleAt (network_block self.now.network) None → TimingFacts (network_block self.now.network) (M.DelayModel.meaning model.now) S.Sense.order }
    {
        if let Some(net) = self.network.cycle() {
            return Err(BlockFault::Cycle(net).into());
        }
        let circuit = Circuit {
            nets: self.network.nets(),
            arcs: self.network.arcs(),
            order: self.network.order(),
            fan_out: self.network.fan_out(),
        };
        Ok(timer::time::<M, S>(model, &circuit, signals, required, slacks, path)?)
    }
}
