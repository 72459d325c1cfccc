//! The variables of the agents, as their last turns left them.

ghost use Rattle.std.specs.Prelude.{◌≡◌, ◌<◌, ◌≤◌, ◌+◌, ◌^◌, length, IfOk, slice_index_or, slice_set};
ghost use Rattle.so_scene.specs.Parts.{agents_from};
ghost use Rattle.so_tables.specs.Tables.{initial, set_back, brought_back};
ghost use Rattle.so_ids.specs.declared.Vars.{Vars as AnyVars};

use so_ids::{AgentId, NoMemory, Vars};
use so_scene::Scene;
use std::alloc::Global;
use std::marker::Model;

/// The variables of each agent.
#[derive(Drop)]
pub struct Variables {
    list: Vec<Vars>,
}

impl Model for Variables {
    ghost use Rattle.std.specs.Prelude.{List};
    ghost use Rattle.so_ids.specs.declared.Vars.{Vars};

    ghost Value = { List Vars };

    ghost view = { λ v. v.list.items };
}

impl Variables {
    /// Those with which the agents of a scene begin.
    pub fn with(alloc: Global, scene: &Scene) -> Result<Variables, NoMemory>
        ensures { IfOk result (λ v. v ≡ initial scene.now) }
    {
        let _parts = scene.parts();
        let mut list = Vec::new(alloc);
        for agent in 0..scene.agents() {
            if list.push(scene.agent(AgentId(agent)).vars).is_err() {
                return Err(NoMemory);
            }
        }
        Ok(Variables { list })
    }

    /// The agents from `first` on have those of the scene again.
    pub fn set_back(&mut self, scene: &Scene, first: AgentId, count: u32)
        requires size { length self.old ≡ length scene.now.agents }
        requires range { first.0 + count ≤ length scene.now.agents }
        requires numbers { first.0 + count < 2 ^ 32 }
        ensures { self.new ≡ set_back scene.now (agents_from first count) self.old }
    {
        for k in 0..count {
            let agent = AgentId(first.0 + k);
            self.set(agent, scene.agent(agent).vars);
        }
    }

    /// The variables of an agent.
    pub fn of(&self, agent: AgentId) -> Vars
        requires { agent.0 < length self.now }
        ensures { (default : AnyVars) → result ≡ slice_index_or self.now agent.0 default }
    {
        self.list[agent.0 as usize]
    }

    /// A turn of the agent has ended with these variables, which it brings back unless it is thread-safe.
    pub fn bring_back(&mut self, safe: bool, agent: AgentId, vars: Vars)
        requires { agent.0 < length self.old }
        ensures { self.new ≡ brought_back safe agent vars self.old }
    {
        if !safe {
            self.set(agent, vars);
        }
    }

    /// They are these now.
    pub fn set(&mut self, agent: AgentId, vars: Vars)
        requires { agent.0 < length self.old }
        ensures { self.new ≡ slice_set self.old agent.0 vars }
    {
        self.list[agent.0 as usize] = vars;
    }
}
