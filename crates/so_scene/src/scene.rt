//! A scene whose parts were checked.

ghost use Rattle.std.specs.Prelude.{◌≡◌, ◌<◌, ◌≤◌, ◌+◌, [], length, slice_index_or, IfOk};
ghost use Rattle.so_scene.specs.Parts.{message_of, agent_of, priority_of, coop_of, disp_of, groups_of, text_of, direct_mbox, mboxes, mbox_name};
ghost use Rattle.so_scene.specs.Checked.{IsScene};

use crate::items::Items;
use crate::lanes::Layout;
use crate::parts::{AgentDef, CoopDef, DispDef, MessageDef, SceneParts};
use crate::words::Name;
use so_ids::{AgentId, CoopId, DispId, MboxId, MsgId, NoMemory, Priority, TextId};
use std::alloc::Global;
use std::marker::Model;

/// A scene: cooperations of agents, the mboxes by which they talk, and the texts that they log.
#[derive(Drop)]
pub struct Scene {
    parts: SceneParts,
    pub(crate) layout: Layout,
}

impl Model for Scene {
    ghost use Rattle.so_scene.specs.declared.parts.SceneParts.{SceneParts};
    ghost use Rattle.so_scene.specs.Checked.{IsScene};
    ghost use Rattle.so_scene.specs.Lanes.{IsLaidOut};

    ghost Value = { SceneParts };

    ghost view = { λ scene. scene.parts };

    ghost invariant = { λ scene. IsScene scene.parts × IsLaidOut scene.parts scene.layout };
}

impl SceneParts {
    /// The names of a dispatcher's groups.
    fn group_names(&self, disp: DispId) -> &Items<Name>
        requires { disp.0 < length self.now.groups }
        ensures { result.now ≡ groups_of self.now disp }
    {
        &self.groups.as_slice()[disp.0 as usize]
    }
}

impl Scene {
    /// The scene of these parts.
    pub fn new(alloc: Global, parts: SceneParts) -> Result<Scene, NoMemory>
        requires { IsScene parts }
        ensures { IfOk result (λ scene. scene ≡ parts) }
    {
        let layout = Layout::of(alloc, &parts)?;
        Ok(Scene { parts, layout })
    }

    /// Its parts.
    pub fn parts(&self) -> &SceneParts
        ensures value { result.now ≡ self.now }
        ensures keeps { IsScene self.now }
    {
        &self.parts
    }

    /// How many types of messages there are.
    pub fn messages(&self) -> u32
        ensures { result ≡ length self.now.messages }
    {
        self.parts.messages.len() as u32
    }

    /// How many agents there are.
    pub fn agents(&self) -> u32
        ensures { result ≡ length self.now.agents }
    {
        self.parts.agents.len() as u32
    }

    /// How many mboxes there are: the direct one of each agent, and the named ones.
    pub fn mboxes(&self) -> u32
        ensures { result ≡ mboxes self.now }
    {
        self.agents() + self.parts.mboxes.len() as u32
    }

    /// How many cooperations there are.
    pub fn coops(&self) -> u32
        ensures { result ≡ length self.now.coops }
    {
        self.parts.coops.len() as u32
    }

    /// Whether the run stops when the last cooperation has left.
    pub fn autoshutdown(&self) -> bool
        ensures { result ≡ self.now.autoshutdown }
    {
        self.parts.autoshutdown
    }

    /// How many texts there are.
    pub fn texts(&self) -> u32
        ensures { result ≡ length self.now.texts }
    {
        self.parts.texts.len() as u32
    }

    /// How many dispatchers there are, `default` among them.
    pub fn dispatchers(&self) -> u32
        ensures { result ≡ length self.now.dispatchers }
    {
        self.parts.dispatchers.len() as u32
    }

    /// How many groups a dispatcher has.
    pub fn groups(&self, disp: DispId) -> u32
        requires { disp.0 < length self.now.dispatchers }
        ensures { result ≡ length (groups_of self.now disp) }
    {
        self.parts().group_names(disp).len() as u32
    }

    /// A dispatcher by its number.
    pub fn dispatcher(&self, disp: DispId) -> &DispDef
        requires { disp.0 < length self.now.dispatchers }
        ensures { result.now ≡ disp_of self.now disp }
    {
        &self.parts.dispatchers.as_slice()[disp.0 as usize]
    }

    /// The name of a dispatcher's group, by its number there.
    pub fn group(&self, disp: DispId, group: u32) -> &Name
        requires disp { disp.0 < length self.now.dispatchers }
        requires group { group < length (groups_of self.now disp) }
        ensures { result.now ≡ slice_index_or (groups_of self.now disp) group [] }
    {
        &self.parts().group_names(disp).as_slice()[group as usize]
    }

    /// A type of messages by its number.
    pub fn message(&self, msg: MsgId) -> &MessageDef
        requires { msg.0 < length self.now.messages }
        ensures { result.now ≡ message_of self.now msg }
    {
        &self.parts.messages.as_slice()[msg.0 as usize]
    }

    /// An agent by its number. Its cooperation and its dispatcher are the scene's.
    pub fn agent(&self, agent: AgentId) -> &AgentDef
        requires { agent.0 < length self.now.agents }
        ensures value { result.now ≡ agent_of self.now agent }
        ensures coop { result.now.coop.0 < length self.now.coops }
        ensures disp { result.now.disp.0 < length self.now.dispatchers }
        ensures few_rows { length result.now.rows ≤ 128 }
        ensures few_filters { length result.now.filters ≤ 32 }
    {
        &self.parts.agents.as_slice()[agent.0 as usize]
    }

    /// The priority of an agent's demands.
    pub fn priority(&self, agent: AgentId) -> Priority
        requires { agent.0 < length self.now.agents }
        ensures { result ≡ priority_of self.now agent }
    {
        self.agent(agent).priority
    }

    /// The name of a mbox by its number. A direct one has its agent's.
    pub fn mbox(&self, mbox: MboxId) -> &Name
        requires { mbox.0 < mboxes self.now }
        ensures { result.now ≡ mbox_name self.now mbox }
    {
        let agents = self.parts.agents.as_slice();
        let at = mbox.0 as usize;
        if at < agents.len() {
            &agents[at].name
        } else {
            &self.parts.mboxes.as_slice()[at - agents.len()]
        }
    }

    /// A cooperation by its number. Its agents are agents of the scene.
    pub fn coop(&self, coop: CoopId) -> &CoopDef
        requires { coop.0 < length self.now.coops }
        ensures value { result.now ≡ coop_of self.now coop }
        ensures range { result.now.first.0 + result.now.count ≤ length self.now.agents }
    {
        &self.parts.coops.as_slice()[coop.0 as usize]
    }

    /// The bytes of a text by its number.
    pub fn text(&self, text: TextId) -> &[u8]
        requires { text.0 < length self.now.texts }
        ensures value { result.now ≡ text_of self.now text }
        ensures short { length result.now ≤ 64 }
    {
        self.parts.texts.as_slice()[text.0 as usize].bytes()
    }
}

/// The direct mbox of an agent, which has the agent's number. Only the agent subscribes to it.
pub fn direct_mbox(agent: AgentId) -> MboxId
    ensures { result ≡ direct_mbox agent }
{
    MboxId(agent.0)
}
