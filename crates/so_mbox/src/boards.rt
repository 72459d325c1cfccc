//! For each mbox, which of the registered agents have a row for which messages.

ghost use Rattle.std.specs.Prelude.{◌≡◌, ◌<◌, ◌≤◌, ◌+◌, [], ◌∷◌, ◌++◌, length, replicate, vec_capacity, not, false, true, if◌then◌else◌, IfOk, IfSome, OnOk};
ghost use Rattle.std.specs.List.{filter, list_any, position};
ghost use Rattle.so_ids.specs.declared.MboxId.{MboxId as MboxNumber};
ghost use Rattle.so_ids.specs.declared.MsgId.{MsgId as MsgNumber};
ghost use Rattle.so_state.specs.Choice.{is_for};
ghost use Rattle.so_scene.specs.Parts.{mboxes, agents_from, rows_of};
ghost use Rattle.so_mbox.specs.Table.{is_none_of, same_agent, has_row};
ghost use Rattle.so_mbox.specs.Boards.{none_listed, with_agents, with_room, is_of, IsListedAt, listed, room_of, is_type, listed_at, room_at, AreWithin, once, is_last, noted, HaveRoom};

use so_ids::{AgentId, MboxId, MsgId, NoMemory};
use so_scene::Scene;
use so_state::Row;
use std::alloc::Global;
use std::marker::Model;

/// The agents that have a row for one type of messages from a mbox, in order of registration.
#[derive(Drop)]
struct Listed {
    msg: MsgId,
    agents: Vec<AgentId>,
    room: usize,
}

impl Model for Listed {
    ghost use Rattle.std.specs.Prelude.{◌≤◌, vec_capacity};
    ghost use Rattle.so_mbox.specs.Boards.{Listing};

    ghost Value = { Listing };

    ghost view = { λ list. record { msg = list.msg; agents = list.agents.items; room = list.room } };

    ghost invariant = { λ list. list.room ≤ vec_capacity list.agents };
}

impl Listed {
    fn with(alloc: Global, msg: MsgId) -> Listed
        ensures { result ≡ none_listed msg }
    {
        Listed {
            msg,
            agents: Vec::new(alloc),
            room: 0,
        }
    }

    fn is_of(&self, msg: MsgId) -> bool
        ensures { result ≡ is_of msg self.now }
    {
        self.msg == msg
    }

    fn as_slice(&self) -> &[AgentId]
        ensures { result.now ≡ self.now.agents }
    {
        self.agents.as_slice()
    }

    /// Makes room for one agent more, as long as there is none.
    fn grow(&mut self) -> Result<(), NoMemory>
        requires { self.old.agents ≡ [] }
        ensures { OnOk result (self.new ≡ with_room (self.old.room + 1) self.old) }
    {
        let Some(room) = self.room.checked_add(1) else {
            return Err(NoMemory);
        };
        self.agents.reserve(room)?;
        self.room = room;
        Ok(())
    }

    fn add(&mut self, agent: AgentId)
        requires { length self.old.agents < self.old.room }
        ensures { self.new ≡ with_agents (self.old.agents ++ agent ∷ []) self.old }
    {
        self.agents.push_reserved(agent);
    }

    fn leave_out(&mut self, first: AgentId, count: u32)
        ensures { self.new ≡ with_agents (filter (is_none_of (agents_from first count)) self.old.agents) self.old }
    {
        leave_out(&mut self.agents, first, count);
    }
}

/// Takes so many agents out of a list, from the first on.
pub(crate) fn leave_out(agents: &mut Vec<AgentId>, first: AgentId, count: u32)
    ensures items { agents.new.items ≡ filter (is_none_of (agents_from first count)) agents.old.items }
    ensures capacity { vec_capacity agents.new ≡ vec_capacity agents.old }
{
    agents.retain(|agent| is_none_of(*agent, first, count));
}

/// Tells whether an agent is none of so many from the first on.
fn is_none_of(agent: AgentId, first: AgentId, count: u32) -> bool
    ensures { result ≡ is_none_of (agents_from first count) agent }
{
    agent.0 < first.0 || agent.0 - first.0 >= count
}

/// The agents that have rows for messages from one mbox, type by type.
#[derive(Drop)]
struct Board {
    lists: Vec<Listed>,
}

impl Model for Board {
    ghost use Rattle.std.specs.Prelude.{List};
    ghost use Rattle.so_mbox.specs.Boards.{Listing};

    ghost Value = { List Listing };

    ghost view = { λ board. board.lists.items };
}

impl Board {
    fn with(alloc: Global) -> Board
        ensures { result ≡ [] }
    {
        Board {
            lists: Vec::new(alloc),
        }
    }

    /// Where the list of a type stands.
    fn find(&self, msg: MsgId) -> Option<usize>
        ensures place { result ≡ position (is_of msg) self.now }
        ensures within { IfSome result (λ at. at < length self.now) }
    {
        self.lists.iter().position(|list| list.is_of(msg))
    }

    fn listed(&self, msg: MsgId) -> &[AgentId]
        ensures { result.now ≡ listed self.now msg }
    {
        match self.find(msg) {
            Some(at) => self.lists[at].as_slice(),
            None => &[],
        }
    }

    /// Makes room for one agent more, as long as there is none.
    fn grow(&mut self, alloc: Global, msg: MsgId) -> Result<(), NoMemory>
        requires { listed self.old msg ≡ [] }
        ensures agents { OnOk result ((m : MsgNumber) → listed self.new m ≡ listed self.old m) }
        ensures room { OnOk result ((m : MsgNumber) → room_of self.new m ≡ (if is_type msg m then room_of self.old m + 1 else room_of self.old m)) }
    {
        let at = self.place(alloc, msg)?;
        self.lists[at].grow()
    }

    /// Where the list of a type stands, which is made if there is none.
    fn place(&mut self, alloc: Global, msg: MsgId) -> Result<usize, NoMemory>
        ensures place { IfOk result (IsListedAt msg self.new) }
        ensures within { IfOk result (λ at. at < length self.new) }
        ensures agents { OnOk result ((m : MsgNumber) → listed self.new m ≡ listed self.old m) }
        ensures room { OnOk result ((m : MsgNumber) → room_of self.new m ≡ room_of self.old m) }
    {
        if let Some(at) = self.find(msg) {
            return Ok(at);
        }
        let at = self.lists.as_slice().len();
        self.lists.reserve(1)?;
        self.lists.push_reserved(Listed::with(alloc, msg));
        Ok(at)
    }

    /// Lists an agent last.
    fn add(&mut self, msg: MsgId, agent: AgentId)
        requires { length (listed self.old msg) < room_of self.old msg }
        ensures agents { (m : MsgNumber) → listed self.new m ≡ (if is_type msg m then listed self.old m ++ agent ∷ [] else listed self.old m) }
        ensures room { (m : MsgNumber) → room_of self.new m ≡ room_of self.old m }
    {
        match self.find(msg) {
            Some(at) => self.lists[at].add(agent),
            None => unreachable!(),
        }
    }

    /// Takes so many agents out of the list of a type, from the first on.
    fn leave_out(&mut self, msg: MsgId, first: AgentId, count: u32)
        ensures agents { (m : MsgNumber) → listed self.new m ≡ (if is_type msg m then filter (is_none_of (agents_from first count)) (listed self.old m) else listed self.old m) }
        ensures room { (m : MsgNumber) → room_of self.new m ≡ room_of self.old m }
    {
        if let Some(at) = self.find(msg) {
            self.lists[at].leave_out(first, count);
        }
    }
}

/// The boards of all mboxes. Nothing after their making takes memory.
#[derive(Drop)]
pub(crate) struct Boards {
    boards: Vec<Board>,
}

impl Model for Boards {
    ghost use Rattle.std.specs.Prelude.{List};
    ghost use Rattle.so_mbox.specs.Boards.{Listing};

    ghost Value = { List (List Listing) };

    ghost view = { λ all. all.boards.items };
}

impl Boards {
    /// Nobody is listed, and there is room for all agents of the scene.
    pub(crate) fn with(alloc: Global, scene: &Scene) -> Result<Boards, NoMemory>
        ensures none { IfOk result (λ all. (mbox : MboxNumber) (msg : MsgNumber) → listed_at all mbox msg ≡ []) }
        ensures room { IfOk result (HaveRoom scene.now (length scene.now.agents)) }
    {
        let mut all = Boards::empty(alloc, scene.mboxes() as usize)?;
        for k in 0..scene.agents() {
            all.grow(alloc, rows_of(scene, AgentId(k)))?;
        }
        Ok(all)
    }

    /// So many boards, on which nothing stands.
    fn empty(alloc: Global, count: usize) -> Result<Boards, NoMemory>
        ensures { IfOk result (λ all. all ≡ replicate count []) }
    {
        let mut boards = Vec::with_capacity(alloc, count)?;
        for _ in 0..count {
            boards.push_reserved(Board::with(alloc));
        }
        Ok(Boards { boards })
    }

    /// Makes room for one agent more with these rows, as long as nobody is listed.
    fn grow(&mut self, alloc: Global, rows: &[Row]) -> Result<(), NoMemory>
        requires within { AreWithin (length self.old) rows.now }
        requires none { (mbox : MboxNumber) (msg : MsgNumber) → listed_at self.old mbox msg ≡ [] }
        ensures boards { OnOk result (length self.new ≡ length self.old) }
        ensures none { OnOk result ((mbox : MboxNumber) (msg : MsgNumber) → listed_at self.new mbox msg ≡ []) }
        ensures room { OnOk result ((mbox : MboxNumber) (msg : MsgNumber) → room_at self.old mbox msg + once (list_any (is_for mbox msg) rows.now) ≤ room_at self.new mbox msg) }
    {
        for row in rows {
            self.make_room(alloc, row)?;
        }
        Ok(())
    }

    /// Makes room for one agent more where the row is for, as long as nobody is listed there.
    fn make_room(&mut self, alloc: Global, row: &Row) -> Result<(), NoMemory>
        requires within { row.now.mbox.0 < length self.old }
        requires none { listed_at self.old row.now.mbox row.now.msg ≡ [] }
        ensures boards { OnOk result (length self.new ≡ length self.old) }
        ensures agents { OnOk result ((mbox : MboxNumber) (msg : MsgNumber) → listed_at self.new mbox msg ≡ listed_at self.old mbox msg) }
        ensures room { OnOk result ((mbox : MboxNumber) (msg : MsgNumber) → room_at self.new mbox msg ≡ (if is_for mbox msg row.now then room_at self.old mbox msg + 1 else room_at self.old mbox msg)) }
    {
        self.boards[row.mbox.0 as usize].grow(alloc, row.msg)
    }

    /// The agents that are listed for messages of the type from the mbox.
    pub(crate) fn listed(&self, mbox: MboxId, msg: MsgId) -> &[AgentId]
        requires { mbox.0 < length self.now }
        ensures { result.now ≡ listed_at self.now mbox msg }
    {
        self.boards[mbox.0 as usize].listed(msg)
    }

    /// Lists an agent last, once wherever one of its rows is for.
    pub(crate) fn enter(&mut self, agent: AgentId, rows: &[Row])
        requires within { AreWithin (length self.old) rows.now }
        requires new { (mbox : MboxNumber) (msg : MsgNumber) → mbox.0 < length self.old → list_any (same_agent agent) (listed_at self.old mbox msg) ≡ false }
        requires room { (mbox : MboxNumber) (msg : MsgNumber) → mbox.0 < length self.old → list_any (is_for mbox msg) rows.now ≡ true → length (listed_at self.old mbox msg) < room_at self.old mbox msg }
        ensures boards { length self.new ≡ length self.old }
        ensures agents { (mbox : MboxNumber) (msg : MsgNumber) → listed_at self.new mbox msg ≡ listed_at self.old mbox msg ++ (if list_any (is_for mbox msg) rows.now then agent ∷ [] else []) }
        ensures room { (mbox : MboxNumber) (msg : MsgNumber) → room_at self.new mbox msg ≡ room_at self.old mbox msg }
    {
        for row in rows {
            self.note(agent, row);
        }
    }

    /// Lists an agent last where the row is for, if it isn't there.
    fn note(&mut self, agent: AgentId, row: &Row)
        requires within { row.now.mbox.0 < length self.old }
        requires room { is_last agent (listed_at self.old row.now.mbox row.now.msg) ≡ false → length (listed_at self.old row.now.mbox row.now.msg) < room_at self.old row.now.mbox row.now.msg }
        ensures boards { length self.new ≡ length self.old }
        ensures agents { (mbox : MboxNumber) (msg : MsgNumber) → listed_at self.new mbox msg ≡ (if is_for mbox msg row.now then noted agent (listed_at self.old mbox msg) else listed_at self.old mbox msg) }
        ensures room { (mbox : MboxNumber) (msg : MsgNumber) → room_at self.new mbox msg ≡ room_at self.old mbox msg }
    {
        if !is_last(agent, self.listed(row.mbox, row.msg)) {
            self.boards[row.mbox.0 as usize].add(row.msg, agent);
        }
    }

    /// Takes so many agents out of the lists that their rows are for, from the first on.
    pub(crate) fn leave(&mut self, scene: &Scene, first: AgentId, count: u32)
        requires boards { length self.old ≡ mboxes scene.now }
        requires agents { first.0 + count ≤ length scene.now.agents }
        ensures boards { length self.new ≡ length self.old }
        ensures agents { (mbox : MboxNumber) (msg : MsgNumber) → listed_at self.new mbox msg ≡ (if list_any (has_row scene.now mbox msg) (agents_from first count) then filter (is_none_of (agents_from first count)) (listed_at self.old mbox msg) else listed_at self.old mbox msg) }
        ensures room { (mbox : MboxNumber) (msg : MsgNumber) → room_at self.new mbox msg ≡ room_at self.old mbox msg }
    {
        let _parts = scene.parts();
        for k in 0..count {
            self.leave_out(rows_of(scene, AgentId(first.0 + k)), first, count);
        }
    }

    /// Takes so many agents out of the lists that these rows are for, from the first on.
    fn leave_out(&mut self, rows: &[Row], first: AgentId, count: u32)
        requires within { AreWithin (length self.old) rows.now }
        ensures boards { length self.new ≡ length self.old }
        ensures agents { (mbox : MboxNumber) (msg : MsgNumber) → listed_at self.new mbox msg ≡ (if list_any (is_for mbox msg) rows.now then filter (is_none_of (agents_from first count)) (listed_at self.old mbox msg) else listed_at self.old mbox msg) }
        ensures room { (mbox : MboxNumber) (msg : MsgNumber) → room_at self.new mbox msg ≡ room_at self.old mbox msg }
    {
        for row in rows {
            self.strike(row, first, count);
        }
    }

    /// Takes so many agents out of the list that the row is for, from the first on.
    fn strike(&mut self, row: &Row, first: AgentId, count: u32)
        requires within { row.now.mbox.0 < length self.old }
        ensures boards { length self.new ≡ length self.old }
        ensures agents { (mbox : MboxNumber) (msg : MsgNumber) → listed_at self.new mbox msg ≡ (if is_for mbox msg row.now then filter (is_none_of (agents_from first count)) (listed_at self.old mbox msg) else listed_at self.old mbox msg) }
        ensures room { (mbox : MboxNumber) (msg : MsgNumber) → room_at self.new mbox msg ≡ room_at self.old mbox msg }
    {
        self.boards[row.mbox.0 as usize].leave_out(row.msg, first, count);
    }
}

/// Tells whether the agent is the last of these.
fn is_last(agent: AgentId, agents: &[AgentId]) -> bool
    ensures { result ≡ is_last agent agents.now }
{
    match agents.last() {
        Some(last) => agent == *last,
        None => false,
    }
}

/// The rows of an agent, which are of mboxes of the scene.
pub(crate) fn rows_of(scene: &Scene, agent: AgentId) -> &[Row]
    requires { agent.0 < length scene.now.agents }
    ensures value { result.now ≡ rows_of scene.now agent }
    ensures within { AreWithin (mboxes scene.now) result.now }
{
    let _parts = scene.parts();
    scene.agent(agent).rows.as_slice()
}
