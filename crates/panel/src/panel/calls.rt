//! The seven calls.
ghost use Rattle.std.specs.Prelude.{◌≡◌, ◌-◌, ◌≤◌, true, ◌&&◌, length, replicate, is_ok, is_some, IfOk, IfErr, if◌then◌else◌, Some, None, Ok, Err, nat_le, slice_index_or};
ghost use Rattle.agreement.specs.declared.call.Refusal.TheVariants.{CutTooLarge, NoSuchProcess};
ghost use Rattle.agreement.specs.Calls.{again_of, allowed, crash_of, cut_fits, deliver_of, done, early, finished, look_of, lose_of, propose_of, recover_of};
ghost use Rattle.tray.specs.declared.Tray.{Tray as Waiting};
ghost use Rattle.process.specs.declared.message.Message.{Message};
ghost use Rattle.process.specs.declared.memory.Status.TheVariants.{Down, Up};
ghost use Rattle.process.specs.Meetings.{deliver};
ghost use Rattle.process.specs.Messages.{well_formed};
ghost use Rattle.process.specs.Ranges.{act_fits, every, memory_fits};
ghost use Rattle.process.specs.Rounds.{still};
ghost use Rattle.process.specs.Turns.{step};
ghost use Rattle.store.specs.CellNames.{cell_number};
ghost use Rattle.panel.specs.Panels.{outcome_in, state_in};
ghost use Rattle.panel.specs.Records.{status_fits};

use super::{Panel, Table, perform};
use agreement::call::Refusal;
use process::identity::{Letter, ProcessId};
use process::lists::is_list;
use process::memory::{Memory, OwnCells, Phase, Status};
use process::message::{Kind, Message, is_reading};
use process::turn::Turn;
use process::turn::steps::{again_turn, deliver_turn, look_turn, propose_turn, recover_turn};
use quorum::QuorumRule;
use store::content::{CellName, Content};
use store::{Store, held};
use tray::Tray;

// How many of n actions are done under a cut.
fn allow(cut: Option<u32>, n: usize) -> usize
    ensures { result ≡ allowed cut n }
{
    cut.map_or(n, |k| n.min(k as usize))
}

// Whether a cut is at most 99.
fn check_cut(cut: Option<u32>) -> Result<(), Refusal>
    ensures { result ≡ (if cut_fits cut then Ok tt else Err CutTooLarge) }
{
    match cut {
        Some(k) if 99 < k => Err(Refusal::CutTooLarge),
        _ => Ok(()),
    }
}

// Whether a message is an ACK of the process's round while it is gathering.
fn is_early(message: &Message, memory: &Memory) -> bool
    ensures { result ≡ early message.now memory.now }
{
    matches!((memory.phase, message.kind), (Phase::Gathering, Kind::Ack))
        && message.round == memory.round
}

// The promise of each call is one equation: its answer, and panel and tray after it (`outcome_in`), are what
// the verdict on the call comes to at what stood before (`state_in`), carried out (`done`). Refused calls are
// part of it. What stands in front of a panel there is what its rule and its store mean. The tray is lent to each
// call and not kept, since its owner may change it in between.
impl<S: Store, R: QuorumRule> Panel<S, R> {
    // A panel over a store and a rule; every process is down.
    pub fn new(store: S, rule: R) -> Panel<S, R>
        ensures { (result.store ≡ store) × (result.rule ≡ rule) × (result.table.records ≡ replicate 9 Down) }
    {
        Panel {
            store,
            rule,
            table: Table::new(),
        }
    }

    // The store, to read.
    pub fn store(&self) -> &S
        ensures { result.now ≡ self.now.store }
    {
        &self.store
    }

    // A process's record; none where the rule has no such process.
    pub fn status(&self, p: u32) -> Option<Status>
        ensures { result ≡ (if nat_le 1 p && nat_le p (R.QuorumRule.processes self.now.rule) then Some (slice_index_or self.now.table.records (p - 1) Down) else None) }
    {
        let id = ProcessId::new(&self.rule, p)?;
        Some(self.table.get(id))
    }

    // The store and the rule, at the end.
    pub fn close(self) -> (S, R)
        ensures { result ≡ (self.store, self.rule) }
    {
        (self.store, self.rule)
    }

    // The process of a number, if the rule has it.
    fn member(&self, p: u32) -> Result<ProcessId, Refusal>
        ensures test { is_ok result ≡ nat_le 1 p && nat_le p (R.QuorumRule.processes self.now.rule) }
        ensures kept { IfOk result (λ id. (id.number ≡ p) × (id.number ≤ R.QuorumRule.processes self.now.rule)) }
        ensures refused { IfErr result (λ e. e ≡ NoSuchProcess) }
    {
        ProcessId::new(&self.rule, p).ok_or(Refusal::NoSuchProcess)
    }

    // Performs what a step planned, as far as the cut goes, and writes the record back. The step is lent: by value its
    // one and a half kilobytes would be copied once more.
    fn finish(
        &mut self,
        tray: &mut Tray<Message>,
        p: ProcessId,
        cut: Option<u32>,
        turn: &Turn,
    ) -> u32
        requires { (length (step turn.now).acts ≤ 32) × ((every (act_fits 9 p.number) (step turn.now).acts ≡ true) × (status_fits p.number (Up (step turn.now).memory) ≡ true)) }
        ensures { outcome_in R.QuorumRule S.Store (Ok result) self.new tray.new ≡ finished p.number cut (step turn.now) (state_in R.QuorumRule S.Store self.old tray.old) }
    {
        let actions = turn.plan.actions();
        let k = allow(cut, actions.len());
        perform(&mut self.store, tray, p, &actions[..k]);
        let status = match cut {
            None => Status::Up(turn.memory),
            Some(_) => Status::Down,
        };
        self.table.put(p, status);
        k as u32
    }

    // Puts a process down. No tray takes part: the equation holds with every one.
    pub fn crash(&mut self, p: u32) -> Result<u32, Refusal>
        ensures { (tray : Waiting Message) → outcome_in R.QuorumRule S.Store result self.new tray ≡ done (crash_of p) (state_in R.QuorumRule S.Store self.old tray) }
    {
        let id = self.member(p)?;
        self.table.up(id)?;
        self.table.put(id, Status::Down);
        Ok(0)
    }

    // Sends the last message to each other process that has one once more.
    pub fn again(
        &mut self,
        tray: &mut Tray<Message>,
        p: u32,
        cut: Option<u32>,
    ) -> Result<u32, Refusal>
        ensures { outcome_in R.QuorumRule S.Store result self.new tray.new ≡ done (again_of p cut) (state_in R.QuorumRule S.Store self.old tray.old) }
    {
        check_cut(cut)?;
        let id = self.member(p)?;
        let memory = self.table.up(id)?;
        match memory.phase {
            Phase::Done => Err(Refusal::ProcessDone),
            Phase::Idle => Err(Refusal::ProcessIdle),
            _ => {
                let turn = again_turn(*memory);
                Ok(self.finish(tray, id, cut, &turn))
            }
        }
    }

    // What a process's cell holds.
    fn cell(&self, p: ProcessId, cell: CellName) -> Option<Content>
        ensures { result ≡ S.Store.cells self.now.store p.number (cell_number cell) }
    {
        held(&self.store, p.number, cell.number())
    }

    // Whether a process has proposed.
    fn has_proposed(&self, p: ProcessId) -> bool
        ensures { result ≡ is_some (S.Store.cells self.now.store p.number 1) }
    {
        self.cell(p, CellName::Proposal).is_some()
    }

    // Proposes a reading.
    pub fn propose(
        &mut self,
        tray: &mut Tray<Message>,
        p: u32,
        reading: u32,
        cut: Option<u32>,
    ) -> Result<u32, Refusal>
        ensures { outcome_in R.QuorumRule S.Store result self.new tray.new ≡ done (propose_of p reading cut) (state_in R.QuorumRule S.Store self.old tray.old) }
    {
        check_cut(cut)?;
        let id = self.member(p)?;
        let panel = &*self;
        let memory = panel.table.up(id)?;
        if memory.phase == Phase::Done {
            return Err(Refusal::ProcessDone);
        }
        if panel.has_proposed(id) {
            return Err(Refusal::AlreadyProposed);
        }
        if !is_reading(reading) {
            return Err(Refusal::NotAReading);
        }
        let turn = propose_turn(&panel.rule, id, *memory, reading);
        Ok(self.finish(tray, id, cut, &turn))
    }

    // Brings a process up again, from its own cells.
    pub fn recover(
        &mut self,
        tray: &mut Tray<Message>,
        p: u32,
        cut: Option<u32>,
    ) -> Result<u32, Refusal>
        ensures { outcome_in R.QuorumRule S.Store result self.new tray.new ≡ done (recover_of p cut) (state_in R.QuorumRule S.Store self.old tray.old) }
    {
        check_cut(cut)?;
        let id = self.member(p)?;
        if let Status::Up(_) = self.table.get(id) {
            return Err(Refusal::AlreadyUp);
        }
        let cells = OwnCells {
            proposal: self.cell(id, CellName::Proposal),
            round: self.cell(id, CellName::Round),
            pair: self.cell(id, CellName::Pair),
            decision: self.cell(id, CellName::Decision),
        };
        let turn = recover_turn(&self.rule, id, cells);
        Ok(self.finish(tray, id, cut, &turn))
    }

    // Delivers a letter to its addressee, whose memory it is given. A function of its own, since the room for a step is
    // cleared where the function begins, and a refused call needs none.
    fn hand_over(
        &mut self,
        tray: &mut Tray<Message>,
        letter: Letter,
        memory: Memory,
        cut: Option<u32>,
    ) -> u32
        requires { (well_formed (R.QuorumRule.processes self.old.rule) letter.message ≡ true) × (memory_fits 9 letter.message.addressee memory ≡ true) }
        ensures { outcome_in R.QuorumRule S.Store (Ok result) self.new tray.new ≡ finished letter.message.addressee cut (deliver (R.QuorumRule.processes self.old.rule) letter.message.addressee (R.QuorumRule.quorum self.old.rule) (S.Store.cells self.old.store letter.message.addressee 4) letter.message (still memory)) (state_in R.QuorumRule S.Store self.old tray.old) }
    {
        let id = letter.addressee();
        let decision = self.cell(id, CellName::Decision);
        let turn = deliver_turn(&self.rule, memory, letter, decision);
        self.finish(tray, id, cut, &turn)
    }

    // Delivers the message at a place, which stays in the tray.
    pub fn deliver(
        &mut self,
        tray: &mut Tray<Message>,
        place: usize,
        cut: Option<u32>,
    ) -> Result<u32, Refusal>
        ensures { outcome_in R.QuorumRule S.Store result self.new tray.new ≡ done (deliver_of place cut) (state_in R.QuorumRule S.Store self.old tray.old) }
    {
        check_cut(cut)?;
        let message = tray.at(place).ok_or(Refusal::NoMessage)?;
        let letter = Letter::new(&self.rule, message).ok_or(Refusal::NoMessage)?;
        let memory = *self.table.up(letter.addressee())?;
        if is_early(&message, &memory) {
            return Err(Refusal::EarlyAck);
        }
        Ok(self.hand_over(tray, letter, memory, cut))
    }

    // Looks at a failure detector's list: for each process its epoch, or none where it is not trusted.
    pub fn look(
        &mut self,
        tray: &mut Tray<Message>,
        p: u32,
        list: &[Option<u32>],
        cut: Option<u32>,
    ) -> Result<u32, Refusal>
        ensures { outcome_in R.QuorumRule S.Store result self.new tray.new ≡ done (look_of p list.now cut) (state_in R.QuorumRule S.Store self.old tray.old) }
    {
        check_cut(cut)?;
        let id = self.member(p)?;
        let memory = self.table.up(id)?;
        match memory.phase {
            Phase::Done => Err(Refusal::ProcessDone),
            Phase::Idle => Err(Refusal::ProcessIdle),
            _ if !is_list(self.rule.size(), list) => Err(Refusal::WrongList),
            _ => {
                let turn = look_turn(&self.rule, id, *memory, list)?;
                Ok(self.finish(tray, id, cut, &turn))
            }
        }
    }

    // Takes the message at a place out of the tray. No process takes part.
    pub fn lose(&self, tray: &mut Tray<Message>, place: usize) -> Result<u32, Refusal>
        ensures { outcome_in R.QuorumRule S.Store result self.now tray.new ≡ done (lose_of place) (state_in R.QuorumRule S.Store self.now tray.old) }
    {
        tray.take_out(place).ok_or(Refusal::NoMessage)?;
        Ok(0)
    }
}
