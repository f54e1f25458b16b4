//! The steps. Each changes the memory in place and plans its actions in order.
ghost use Rattle.std.specs.Prelude.{◌≡◌, ℕ, ◌+◌, ◌<◌, ◌≤◌, true, [], ◌∷◌, ◌++◌, length};
ghost use Rattle.std.specs.List.{flat_map};
ghost use Rattle.store.specs.Cells.{sound};
ghost use Rattle.process.specs.Laws.{Gains, KeptOnce, Lawful, LookLawful, RepeatedAck, RoundFirst};
ghost use Rattle.process.specs.Looks.{epochs_fit, look, note};
ghost use Rattle.process.specs.Meetings.{accept, again, deliver, heed, keep, learn, meet, post, reply, resend};
ghost use Rattle.process.specs.Messages.{is_reading, well_formed};
ghost use Rattle.process.specs.Phases.{is_active};
ghost use Rattle.process.specs.Ranges.{memory_fits};
ghost use Rattle.process.specs.Rounds.{ack, addressed, begin, best_kept, blank, conclude, confirmed, enter, follow, gathered, lead, only, propose, propound, recover, remember, send, senders, settle, still, to_all, write};
ghost use Rattle.process.specs.Turns.{looked, planned, step, used};

use super::super::identity::{Letter, ProcessId};
use super::super::lists::{coordinator_epoch, find_next, must_go, trusts_any};
use super::super::memory::{Action, Memory, OwnCells, Phase};
use super::super::message::{Kind, Message};
use super::{NoRound, Plan, Turn};
use quorum::{ProcessSet, QuorumRule};
use store::content::{CellName, Content};
use tray::Tray;
use tray::choice::best_of_tray;
use tray::kinds::Estimate;

// A process in its panel: the rule, and which of the rule's processes it is. No model: its value would hold
// the rule's test of sets, and the value of a model holds no function.
#[derive(Drop)]
struct Seat<'r, R> {
    rule: &'r R,
    id: ProcessId,
}

impl<R: QuorumRule> Seat<'_, R> {
    // The set of it alone.
    fn alone(&self) -> ProcessSet
        ensures { result ≡ only self.now.id.number }
    {
        let mut set = [false; 9];
        set[self.id.place()] = true;
        set
    }

    // A message of it, whose addressee is still to be filled in.
    fn message(&self, kind: Kind, round: u32, reading: u32, stamp: u32) -> Message
        ensures { result ≡ record { sender = self.now.id.number; addressee = 0; kind = kind; round = round; reading = reading; stamp = stamp } }
    {
        Message {
            sender: self.id.number,
            addressee: 0,
            kind,
            round,
            reading,
            stamp,
        }
    }
}

impl Plan {
    // No action.
    fn new() -> Plan
        ensures { planned result ≡ [] }
    {
        // An action that is zeros in memory: clearing the places is then one call.
        let unused = Action::Write(CellName::Proposal, Content::default());
        Plan {
            actions: [unused; 32],
            len: 0,
        }
    }

    // One action more.
    fn push(&mut self, action: Action)
        requires { length (planned self.old) < 32 }
        ensures value { planned self.new ≡ planned self.old ++ (action ∷ []) }
        ensures bound { length (planned self.new) ≡ length (planned self.old) + 1 }
    {
        self.actions[self.len] = action;
        self.len += 1;
    }

    // The actions in order.
    pub fn actions(&self) -> &[Action]
        ensures { result.now ≡ planned self.now }
    {
        &self.actions[..self.len]
    }
}

// The senders of kept estimates.
fn senders_of(estimates: &[Option<Estimate>; 9]) -> ProcessSet
    ensures { result ≡ senders estimates.now }
{
    estimates.map(|slot| slot.is_some())
}

// The best of the kept estimates.
fn best_of_kept(estimates: &[Option<Estimate>; 9]) -> Option<Estimate>
    ensures { result ≡ best_kept estimates.now }
{
    let mut slots = [Estimate::default(); 9];
    let mut tray = Tray::new(&mut slots);
    for estimate in estimates.iter().flatten() {
        let _ = tray.put(*estimate);
    }
    best_of_tray(&tray)
}

// The last messages once more, in rising order of their addressees.
fn repeat_last(last: &[Option<Message>; 9]) -> Plan
    ensures value { planned result ≡ flat_map resend last.now }
    ensures nine { length last.now ≡ 9 }
{
    let mut plan = Plan::new();
    // Slot by slot: over `flatten`, the loop is not unrolled, and a call that is refused pays for the plan too.
    for slot in last {
        if let Some(message) = slot {
            plan.push(Action::Send(*message));
        }
    }
    plan
}

// What a process remembers at first.
fn blank_memory() -> Memory
    ensures { result ≡ blank }
{
    Memory::default()
}

// What a `requires` says of `used` is the room that a method needs in the plan, whose 32 places are fixed.
impl Turn {
    // Nothing done yet.
    fn start(memory: Memory) -> Turn
        ensures { step result ≡ still memory }
    {
        Turn {
            memory,
            plan: Plan::new(),
        }
    }

    // Writes a cell.
    fn write(&mut self, cell: CellName, number: u32, stamp: u32)
        requires { used self.old + 1 ≤ 32 }
        ensures value { step self.new ≡ write cell number stamp (step self.old) }
        ensures bound { used self.new ≡ used self.old + 1 }
    {
        self.plan
            .push(Action::Write(cell, Content { number, stamp }));
    }

    // Sends a message to a process, which is then the last one to it.
    fn send(&mut self, to: ProcessId, message: Message)
        requires { used self.old + 1 ≤ 32 }
        ensures value { step self.new ≡ send (addressed message to.number) (step self.old) }
        ensures bound { used self.new ≡ used self.old + 1 }
    {
        let message = Message {
            addressee: to.number,
            ..message
        };
        self.memory.last[to.place()] = Some(message);
        self.plan.push(Action::Send(message));
    }

    // Sends a message that does not count as a last one.
    fn post(&mut self, to: ProcessId, message: Message)
        requires { used self.old + 1 ≤ 32 }
        ensures { step self.new ≡ post (addressed message to.number) (step self.old) }
    {
        self.plan.push(Action::Send(Message {
            addressee: to.number,
            ..message
        }));
    }

    // Sends a message to all processes but its sender.
    fn broadcast<R: QuorumRule>(&mut self, seat: &Seat<'_, R>, message: Message)
        requires { used self.old + 9 ≤ 32 }
        ensures value { step self.new ≡ to_all (R.QuorumRule.processes seat.now.rule.now) message (step self.old) }
        ensures bound { used self.new ≤ used self.old + 9 }
    {
        for number in 1..=seat.rule.size() {
            if number != message.sender {
                self.send(ProcessId { number }, message);
            }
        }
    }

    // Takes a reading as the round's choice: writes the pair, and tells all.
    fn propound<R: QuorumRule>(&mut self, seat: &Seat<'_, R>, reading: u32)
        requires { used self.old + 10 ≤ 32 }
        ensures value { step self.new ≡ propound (R.QuorumRule.processes seat.now.rule.now) seat.now.id.number reading (step self.old) }
        ensures bound { used self.new ≤ used self.old + 10 }
    {
        let round = self.memory.round;
        self.memory.reading = reading;
        self.memory.stamp = round;
        self.memory.acknowledgers = seat.alone();
        self.memory.phase = Phase::Confirming;
        self.write(CellName::Pair, reading, round);
        self.broadcast(seat, seat.message(Kind::NewEstimate, round, reading, 0));
    }

    // Decides the reading: tells all, and writes the decision.
    fn conclude<R: QuorumRule>(&mut self, seat: &Seat<'_, R>)
        requires { used self.old + 10 ≤ 32 }
        ensures { step self.new ≡ conclude (R.QuorumRule.processes seat.now.rule.now) seat.now.id.number (step self.old) }
    {
        let reading = self.memory.reading;
        self.broadcast(seat, seat.message(Kind::Decide, 0, reading, 0));
        self.write(CellName::Decision, reading, 0);
        self.memory.phase = Phase::Done;
    }

    // Where it gathers and the senders of kept estimates are enough, takes the best of them.
    fn gathered<R: QuorumRule>(&mut self, seat: &Seat<'_, R>)
        requires { used self.old + 10 ≤ 32 }
        ensures value { step self.new ≡ gathered (R.QuorumRule.processes seat.now.rule.now) seat.now.id.number (R.QuorumRule.quorum seat.now.rule.now) (step self.old) }
        ensures bound { used self.new ≤ used self.old + 10 }
    {
        if self.memory.phase == Phase::Gathering
            && seat.rule.enough(&senders_of(&self.memory.kept))
            && let Some(best) = best_of_kept(&self.memory.kept)
        {
            self.propound(seat, best.reading);
        }
    }

    // Where it confirms and the acknowledgers are enough, decides.
    fn confirmed<R: QuorumRule>(&mut self, seat: &Seat<'_, R>)
        requires { used self.old + 10 ≤ 32 }
        ensures { step self.new ≡ confirmed (R.QuorumRule.processes seat.now.rule.now) seat.now.id.number (R.QuorumRule.quorum seat.now.rule.now) (step self.old) }
    {
        if self.memory.phase == Phase::Confirming && seat.rule.enough(&self.memory.acknowledgers) {
            self.conclude(seat);
        }
    }

    // The choice, and then the decision.
    #[tactic(auto, unfolding(crate::specs::Rounds::settle))]
    fn settle<R: QuorumRule>(&mut self, seat: &Seat<'_, R>)
        requires { used self.old + 20 ≤ 32 }
        ensures { step self.new ≡ settle (R.QuorumRule.processes seat.now.rule.now) seat.now.id.number (R.QuorumRule.quorum seat.now.rule.now) (step self.old) }
    {
        self.gathered(seat);
        self.confirmed(seat);
    }

    // Begins a round.
    fn begin(&mut self, round: u32)
        requires { used self.old + 1 ≤ 32 }
        ensures value { step self.new ≡ write CellName.Round round 0 (remember (begin round) (step self.old)) }
        ensures bound { used self.new ≡ used self.old + 1 }
    {
        self.memory.round = round;
        self.memory.epoch = None;
        self.memory.kept = [None; 9];
        self.memory.acknowledgers = [false; 9];
        self.write(CellName::Round, round, 0);
    }

    // The coordinator's part of an entry, without the settling.
    fn lead<R: QuorumRule>(&mut self, seat: &Seat<'_, R>, round: u32)
        requires { used self.old + 9 ≤ 32 }
        ensures value { step self.new ≡ lead (R.QuorumRule.processes seat.now.rule.now) seat.now.id.number round (step self.old) }
        ensures bound { used self.new ≤ used self.old + 9 }
    {
        if self.memory.stamp == round {
            let reading = self.memory.reading;
            self.memory.acknowledgers = seat.alone();
            self.memory.phase = Phase::Confirming;
            self.broadcast(seat, seat.message(Kind::NewEstimate, round, reading, 0));
        } else {
            self.broadcast(seat, seat.message(Kind::NewRound, round, 0, 0));
            let Memory { reading, stamp, .. } = self.memory;
            self.memory.kept[seat.id.place()] = Some(Estimate {
                sender: seat.id.number,
                reading,
                stamp,
            });
            self.memory.phase = Phase::Gathering;
        }
    }

    // Acknowledges a round's choice to its coordinator.
    fn acknowledge<R: QuorumRule>(&mut self, seat: &Seat<'_, R>, coordinator: ProcessId, round: u32)
        requires { used self.old + 1 ≤ 32 }
        ensures value { step self.new ≡ send (addressed (ack seat.now.id.number round) coordinator.number) (step self.old) }
        ensures bound { used self.new ≡ used self.old + 1 }
    {
        self.send(coordinator, seat.message(Kind::Ack, round, 0, 0));
    }

    // Any other process's part of an entry.
    fn follow<R: QuorumRule>(&mut self, seat: &Seat<'_, R>, coordinator: ProcessId, round: u32)
        requires { used self.old + 1 ≤ 32 }
        ensures { step self.new ≡ follow seat.now.id.number coordinator.number round (step self.old) }
    {
        let Memory { reading, stamp, .. } = self.memory;
        if stamp == round {
            self.acknowledge(seat, coordinator, round);
            self.memory.phase = Phase::Acked;
        } else {
            self.send(
                coordinator,
                seat.message(Kind::Estimate, round, reading, stamp),
            );
            self.memory.phase = Phase::Waiting;
        }
    }

    // Enters a round.
    fn enter<R: QuorumRule>(&mut self, seat: &Seat<'_, R>, round: u32)
        requires { used self.old + 30 ≤ 32 }
        ensures first { RoundFirst round (step self.old) (step self.new) }
        ensures value { step self.new ≡ enter (R.QuorumRule.processes seat.now.rule.now) seat.now.id.number (R.QuorumRule.quorum seat.now.rule.now) round (step self.old) }
    {
        self.begin(round);
        let coordinator = ProcessId::coordinator_of(seat.rule, round);
        if seat.id == coordinator {
            self.lead(seat, round);
            self.settle(seat);
        } else {
            self.follow(seat, coordinator, round);
        }
    }

    // Keeps an estimate if none is kept from its sender.
    fn keep(&mut self, letter: Letter)
        ensures { step self.new ≡ remember (keep letter.message) (step self.old) }
    {
        let Message {
            sender,
            reading,
            stamp,
            ..
        } = letter.message;
        let _ = self.memory.kept[letter.sender().place()].get_or_insert(Estimate {
            sender,
            reading,
            stamp,
        });
    }

    // Takes over the coordinator's reading: writes the pair, and acknowledges it.
    fn accept<R: QuorumRule>(&mut self, seat: &Seat<'_, R>, letter: Letter)
        requires { used self.old + 2 ≤ 32 }
        ensures { step self.new ≡ accept seat.now.id.number letter.message (step self.old) }
    {
        let round = self.memory.round;
        self.memory.reading = letter.message.reading;
        self.memory.stamp = round;
        self.write(CellName::Pair, letter.message.reading, round);
        self.acknowledge(seat, letter.sender(), round);
        self.memory.phase = Phase::Acked;
    }

    // What a message of the process's round does, by the phase and the kind together.
    fn meet<R: QuorumRule>(&mut self, seat: &Seat<'_, R>, letter: Letter)
        requires { used self.old + 20 ≤ 32 }
        ensures { step self.new ≡ meet (R.QuorumRule.processes seat.now.rule.now) seat.now.id.number (R.QuorumRule.quorum seat.now.rule.now) letter.message (step self.old) }
    {
        let sender = letter.sender();
        match (self.memory.phase, letter.message.kind) {
            (Phase::Gathering, Kind::Estimate) => {
                self.keep(letter);
                self.settle(seat);
            }
            (Phase::Confirming, Kind::Ack) => {
                self.memory.acknowledgers[sender.place()] = true;
                self.settle(seat);
            }
            (Phase::Waiting, Kind::NewEstimate)
                if sender == ProcessId::coordinator_of(seat.rule, self.memory.round) => {
                self.accept(seat, letter);
            }
            _ => {}
        }
    }

    // Done: answers with the decision.
    fn reply<R: QuorumRule>(
        &mut self,
        seat: &Seat<'_, R>,
        decision: Option<Content>,
        letter: Letter,
    )
        requires { used self.old + 1 ≤ 32 }
        ensures { step self.new ≡ reply seat.now.id.number decision letter.message (step self.old) }
    {
        if let Some(content) = decision
            && letter.message.kind != Kind::Decide
        {
            let answer = seat.message(Kind::Decide, 0, content.number, 0);
            self.post(letter.sender(), answer);
        }
    }

    // Takes a decision over.
    fn learn(&mut self, letter: Letter)
        requires { used self.old + 1 ≤ 32 }
        ensures { step self.new ≡ learn letter.message (step self.old) }
    {
        self.write(CellName::Decision, letter.message.reading, 0);
        self.memory.phase = Phase::Done;
    }

    // Hears a message, and lets it do its work if its round is the process's.
    fn heed<R: QuorumRule>(&mut self, seat: &Seat<'_, R>, letter: Letter)
        requires { used self.old + 20 ≤ 32 }
        ensures { step self.new ≡ heed (R.QuorumRule.processes seat.now.rule.now) seat.now.id.number (R.QuorumRule.quorum seat.now.rule.now) letter.message (step self.old) }
    {
        let round = letter.message.round;
        self.memory.heard = self.memory.heard.max(round);
        if round == self.memory.round {
            self.meet(seat, letter);
        }
    }

    // What a message does to its addressee, by whether it is done and whether it is told of a decision.
    #[tactic(auto, unfolding(crate::specs::Meetings::deliver))]
    fn receive<R: QuorumRule>(
        &mut self,
        seat: &Seat<'_, R>,
        decision: Option<Content>,
        letter: Letter,
    )
        requires { used self.old + 20 ≤ 32 }
        ensures { step self.new ≡ deliver (R.QuorumRule.processes seat.now.rule.now) seat.now.id.number (R.QuorumRule.quorum seat.now.rule.now) decision letter.message (step self.old) }
    {
        match (self.memory.phase, letter.message.kind) {
            (Phase::Done, _) => self.reply(seat, decision, letter),
            (_, Kind::Decide) => self.learn(letter),
            _ => self.heed(seat, letter),
        }
    }

    // Notes the coordinator's epoch if none was noted.
    fn note(&mut self, epoch: Option<u32>)
        ensures { step self.new ≡ remember (note epoch) (step self.old) }
    {
        self.memory.epoch = self.memory.epoch.or(epoch);
    }
}

// In every promise `lawful` messages are between processes 1 to `among`, which is any number from the rule's on.
// A step is a kilobyte and a half: three of them are always inlined, since each copy of it costs as much as the step.

// Propose: writes the proposal, and enters round 1.
#[inline(always)]
pub fn propose_turn<R: QuorumRule>(rule: &R, p: ProcessId, memory: Memory, reading: u32) -> Turn
    ensures value { step result ≡ propose (R.QuorumRule.processes rule.now) p.number (R.QuorumRule.quorum rule.now) reading (still memory) }
    ensures lawful { (among : ℕ) → R.QuorumRule.processes rule.now ≤ among → p.number ≤ R.QuorumRule.processes rule.now → Lawful ((memory_fits among p.number memory ≡ true) × (is_reading reading ≡ true)) among p.number 28 (step result) }
{
    let mut turn = Turn::start(memory);
    turn.write(CellName::Proposal, reading, 0);
    turn.memory.reading = reading;
    turn.memory.stamp = 0;
    turn.enter(&Seat { rule, id: p }, 1);
    turn
}

// Recover: goes on from what the process's own cells hold.
#[inline(always)]
pub fn recover_turn<R: QuorumRule>(rule: &R, p: ProcessId, cells: OwnCells) -> Turn
    ensures value { step result ≡ recover (R.QuorumRule.processes rule.now) p.number (R.QuorumRule.quorum rule.now) cells }
    ensures lawful { (among : ℕ) → R.QuorumRule.processes rule.now ≤ among → p.number ≤ R.QuorumRule.processes rule.now → Lawful ((sound 1 cells.proposal ≡ true) × (sound 2 cells.round ≡ true) × (sound 3 cells.pair ≡ true)) among p.number 27 (step result) }
{
    let mut turn = Turn::start(blank_memory());
    match (cells.decision, cells.proposal) {
        (Some(_), _) => {
            turn.memory.phase = Phase::Done;
        }
        (None, None) => {}
        (None, Some(proposal)) => {
            turn.memory.reading = cells.pair.map_or(proposal.number, |pair| pair.number);
            turn.memory.stamp = cells.pair.map_or(0, |pair| pair.stamp);
            let round = cells.round.map_or(1, |round| round.number);
            turn.enter(&Seat { rule, id: p }, round);
        }
    }
    turn
}

// Look: goes on to a higher round where it must, else notes the coordinator's epoch.
pub fn look_turn<R: QuorumRule>(
    rule: &R,
    p: ProcessId,
    memory: Memory,
    list: &[Option<u32>],
) -> Result<Turn, NoRound>
    ensures value { looked result ≡ look (R.QuorumRule.processes rule.now) p.number (R.QuorumRule.quorum rule.now) list.now memory }
    ensures lawful { (among : ℕ) → R.QuorumRule.processes rule.now ≤ among → p.number ≤ R.QuorumRule.processes rule.now → LookLawful ((memory_fits among p.number memory ≡ true) × (is_active memory.phase ≡ true) × (epochs_fit list.now ≡ true)) among p.number 27 (looked result) }
{
    let mut turn = Turn::start(memory);
    if !trusts_any(list) {
        return Ok(turn);
    }
    let epoch = coordinator_epoch(rule, list, memory.round);
    if must_go(epoch, &memory) {
        let round = find_next(rule, list, &memory).ok_or(NoRound)?;
        turn.enter(&Seat { rule, id: p }, round);
        return Ok(turn);
    }
    turn.note(epoch);
    Ok(turn)
}

// Deliver: what a message does to its addressee, whose decision cell holds `decision`.
#[inline(always)]
pub fn deliver_turn<R: QuorumRule>(
    rule: &R,
    memory: Memory,
    letter: Letter,
    decision: Option<Content>,
) -> Turn
    ensures value { step result ≡ deliver (R.QuorumRule.processes rule.now) letter.message.addressee (R.QuorumRule.quorum rule.now) decision letter.message (still memory) }
    ensures lawful { (among : ℕ) → R.QuorumRule.processes rule.now ≤ among → letter.message.addressee ≤ R.QuorumRule.processes rule.now → Lawful ((memory_fits among letter.message.addressee memory ≡ true) × (well_formed (R.QuorumRule.processes rule.now) letter.message ≡ true) × (sound 4 decision ≡ true)) among letter.message.addressee 27 (step result) }
    ensures gains { Gains letter.message.addressee letter.message memory result.memory }
    ensures repeated { RepeatedAck (R.QuorumRule.quorum rule.now) letter.message memory (step result) }
    ensures once { KeptOnce letter.message memory result.memory }
{
    let mut turn = Turn::start(memory);
    let seat = Seat {
        rule,
        id: letter.addressee(),
    };
    turn.receive(&seat, decision, letter);
    turn
}

// Again: sends the last message to each other process that has one.
pub fn again_turn(memory: Memory) -> Turn
    ensures value { step result ≡ again memory }
    ensures lawful { (n p : ℕ) → 1 ≤ n → n ≤ 9 → 1 ≤ p → p ≤ n → Lawful (memory_fits n p memory ≡ true) n p 27 (step result) }
{
    Turn {
        memory,
        plan: repeat_last(&memory.last),
    }
}
