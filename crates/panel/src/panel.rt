//! A panel: one store, one rule, and the records of the processes.
ghost use Rattle.std.specs.Prelude.{◌≡◌, ◌-◌, true, length, replicate, IfOk, MatchResult, slice_index_or, slice_set};
ghost use Rattle.agreement.specs.Worlds.{act, performed};
ghost use Rattle.agreement.specs.declared.call.Refusal.TheVariants.{ProcessDown};
ghost use Rattle.process.specs.Ranges.{act_fits, every, memory_fits};
ghost use Rattle.process.specs.declared.memory.Status.TheVariants.{Down, Up};
ghost use Rattle.tray.specs.Items.{places};
ghost use Rattle.panel.specs.Records.{Ranged, status_fits, world_of};

mod calls;
mod sitting;

use agreement::call::Refusal;
use process::identity::ProcessId;
use process::memory::{Action, Memory, Status};
use process::message::Message;
use store::Store;
use tray::Tray;

// The records of nine processes, each at its place. No model: the clauses read the one field that there is.
#[derive(Clone, Copy)]
struct Table {
    records: [Status; 9],
    ghost long: { length records ≡ 9 },
    ghost ranged: { Ranged records },
}

// No model: what a store and a rule mean are functions, and the value of a model is data.
#[derive(Drop)]
pub struct Panel<S, R> {
    store: S,
    rule: R,
    table: Table,
}

impl Table {
    // Every process is down.
    fn new() -> Table
        ensures { result.records ≡ replicate 9 Down }
    {
        Table {
            records: [Status::Down; 9],
        }
    }

    // A copy of a process's record.
    fn get(&self, p: ProcessId) -> Status
        ensures value { result ≡ slice_index_or self.now.records (p.number - 1) Down }
        ensures fits { status_fits p.number result ≡ true }
    {
        self.records[p.place()]
    }

    // What a process remembers, if it is up: lent, since a memory is half a kilobyte, and a refused call needs no copy.
    fn up(&self, p: ProcessId) -> Result<&Memory, Refusal>
        ensures value { let y = slice_index_or self.now.records (p.number - 1) Down in MatchResult result (λ m. y ≡ Up m.now) (λ e. (e ≡ ProcessDown) × (y ≡ Down)) }
        ensures fits { IfOk result (λ m. memory_fits 9 p.number m.now ≡ true) }
    {
        match &self.records[p.place()] {
            Status::Up(memory) => Ok(memory),
            Status::Down => Err(Refusal::ProcessDown),
        }
    }

    // Writes a process's record back.
    fn put(&mut self, p: ProcessId, status: Status)
        requires { status_fits p.number status ≡ true }
        ensures { self.new.records ≡ slice_set self.old.records (p.number - 1) status }
    {
        self.records[p.place()] = status;
    }
}

// One action of process p.
fn act_one<S: Store>(store: &mut S, tray: &mut Tray<Message>, p: ProcessId, action: Action)
    requires { act_fits 9 p.number action ≡ true }
    ensures world { world_of (S.Store.cells store.new) tray.new ≡ act (places tray.old) p.number (world_of (S.Store.cells store.old) tray.old) action }
    ensures room { places tray.new ≡ places tray.old }
{
    match action {
        Action::Write(cell, content) => {
            let _ = store.write(p.number, cell.number(), content);
        }
        Action::Send(message) => {
            let _ = tray.put(message);
        }
    }
}

// Actions in order.
fn perform<S: Store>(store: &mut S, tray: &mut Tray<Message>, p: ProcessId, actions: &[Action])
    requires { every (act_fits 9 p.number) actions.now ≡ true }
    ensures world { world_of (S.Store.cells store.new) tray.new ≡ performed (places tray.old) p.number (world_of (S.Store.cells store.old) tray.old) actions.now }
    ensures room { places tray.new ≡ places tray.old }
{
    for action in actions {
        act_one(store, tray, p, *action);
    }
}
