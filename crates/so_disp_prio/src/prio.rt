//! The rounds of the dispatchers, and the pick of a lane.
ghost use Rattle.std.specs.Prelude.{◌≡◌, ◌<◌, length, replicate, slice_set, IfOk};
ghost use Rattle.so_scene.specs.Lanes.{lanes, keys};
ghost use Rattle.so_scene.specs.Rounds.{first_round, after_taking};
ghost use Rattle.so_queue.specs.Queues.{keys_of};
ghost use Rattle.so_disp_prio.specs.Pick.{round_of, is_open, open_head, pick, rounds_after};

use crate::head::head;
use so_ids::{AgentId, DemandId, DispId, KeyId, LaneId, NoMemory, Priority};
use so_queue::{Queues, lesser_of};
use so_scene::{DispKind, Round, Scene};
use std::alloc::Global;
use std::marker::Model;

/// The round of each dispatcher, of which only those of quoted_round_robin are moved.
#[derive(Drop)]
pub struct Prio {
    rounds: Vec<Round>,
}

impl Model for Prio {
    ghost use Rattle.std.specs.Prelude.{List};
    ghost use Rattle.so_scene.specs.declared.round.Round.{Round};

    ghost Value = { List Round };

    ghost view = { λ prio. prio.rounds.items };
}

impl Prio {
    /// The first round of each dispatcher of a scene.
    pub fn with(alloc: Global, scene: &Scene) -> Result<Prio, NoMemory>
        ensures { IfOk result (λ prio. prio ≡ replicate (length scene.now.dispatchers) first_round) }
    {
        let Ok(rounds) = Vec::from_elem(alloc, Round::first(), scene.dispatchers() as usize) else {
            return Err(NoMemory);
        };
        Ok(Prio { rounds })
    }

    /// The demand that a lane may take: the least of those that come first in the queues that it serves and of which
    /// no turn runs. With strictly_ordered the first of the highest priority that has one comes first, with
    /// quoted_round_robin the first of the moved round's priority, else the least. `None` exactly where there is none.
    pub fn pick(&self, scene: &Scene, queues: &Queues, lane: LaneId) -> Option<DemandId>
        requires lane { lane.0 < lanes scene.now }
        requires keys { keys_of queues.now ≡ keys scene.now }
        requires rounds { length self.now ≡ length scene.now.dispatchers }
        ensures { result ≡ pick scene.now self.now queues.now lane }
    {
        let mut best = None;
        let mut at = queues.ready();
        while let Some(key) = at {
            best = lesser_of(best, self.open_head(scene, queues, lane, key));
            at = queues.ready_after(key);
        }
        best
    }

    /// The same, queue by queue. Slow: it is what the other pick is compared with.
    #[tactic(auto, unfolding(so_queue::specs::Picks::least_below, crate::specs::Pick::pick))]
    pub fn plain_pick(&self, scene: &Scene, queues: &Queues, lane: LaneId) -> Option<DemandId>
        requires lane { lane.0 < lanes scene.now }
        requires keys { keys_of queues.now ≡ keys scene.now }
        requires rounds { length self.now ≡ length scene.now.dispatchers }
        ensures { result ≡ pick scene.now self.now queues.now lane }
    {
        let mut best = None;
        for key in 0..scene.keys() {
            best = lesser_of(best, self.open_head(scene, queues, lane, KeyId(key)));
        }
        best
    }

    /// The lane takes a demand of the priority. With quoted_round_robin one more of the quote is used where it is the
    /// round's priority and there is some left, else one of a new quote. With any other kind nothing changes.
    pub fn took(&mut self, scene: &Scene, lane: LaneId, priority: Priority)
        requires lane { lane.0 < lanes scene.now }
        requires rounds { length self.old ≡ length scene.now.dispatchers }
        ensures { self.new ≡ rounds_after scene.now lane priority self.old }
    {
        let disp = scene.lane(lane).disp;
        let def = scene.dispatcher(disp);
        match def.kind {
            DispKind::QuotedRoundRobin => self.use_one(disp, &def.quotes, priority),
            _ => {}
        }
    }

    /// Uses one of the quote of a priority.
    fn use_one(&mut self, disp: DispId, quotes: &[u32; 8], priority: Priority)
        requires { disp.0 < length self.old }
        ensures { self.new ≡ slice_set self.old disp.0 (after_taking quotes.now priority (round_of self.old disp)) }
    {
        let at = disp.0 as usize;
        self.rounds[at] = self.rounds[at].after_taking(quotes, priority);
    }

    /// The demand that comes first in a queue, where the lane may take from it.
    #[tactic(auto, unfolding(so_scene::specs::Lanes::keys))]
    fn open_head(
        &self,
        scene: &Scene,
        queues: &Queues,
        lane: LaneId,
        key: KeyId,
    ) -> Option<DemandId>
        requires lane { lane.0 < lanes scene.now }
        requires keys { keys_of queues.now ≡ keys scene.now }
        requires key { key.0 < keys scene.now }
        requires rounds { length self.now ≡ length scene.now.dispatchers }
        ensures { result ≡ open_head scene.now self.now queues.now lane key.0 }
    {
        if is_open(scene, queues, lane, key) {
            let disp = scene.queue(AgentId(key.0)).disp;
            head(scene.dispatcher(disp), self.round(disp), queues, key)
        } else {
            None
        }
    }

    /// The round of a dispatcher.
    fn round(&self, disp: DispId) -> Round
        requires { disp.0 < length self.now }
        ensures { result ≡ round_of self.now disp }
    {
        self.rounds[disp.0 as usize]
    }
}

/// Tells whether the lane may take from the queue.
fn is_open(scene: &Scene, queues: &Queues, lane: LaneId, key: KeyId) -> bool
    requires lane { lane.0 < lanes scene.now }
    requires keys { keys_of queues.now ≡ keys scene.now }
    requires key { key.0 < keys scene.now }
    ensures { result ≡ is_open scene.now queues.now lane key }
{
    scene.serves(lane, key) && queues.is_quiet(key)
}
