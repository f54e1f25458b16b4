//! Failure detectors' lists: for each process an epoch, or none where it is not trusted.
ghost use Rattle.std.specs.Prelude.{◌≡◌, ◌&&◌, length, ◌==◌};
ghost use Rattle.process.specs.Looks.{epoch_of, epochs_fit, Least, may_enter, must_leave, next_round, trusts_some};
ghost use Rattle.process.specs.Rounds.{coordinator};

use super::identity::ProcessId;
use super::memory::Memory;
use quorum::QuorumRule;
use store::content::MAX_ROUND;
use tray::Tray;
use tray::choice::best_of_tray;
use tray::kinds::Round;

// Whether every epoch is at most 999,999.
fn do_epochs_fit(list: &[Option<u32>]) -> bool
    ensures { result ≡ epochs_fit list.now }
{
    list.iter()
        .all(|slot| slot.is_none_or(|epoch| epoch <= MAX_ROUND))
}

// Whether a list has n entries, and every epoch is at most 999,999.
pub fn is_list(n: u32, list: &[Option<u32>]) -> bool
    ensures { result ≡ (length list.now == n) && epochs_fit list.now }
{
    list.len() == n as usize && do_epochs_fit(list)
}

// Whether some process is trusted.
pub fn trusts_any(list: &[Option<u32>]) -> bool
    ensures { result ≡ trusts_some list.now }
{
    list.iter().any(Option::is_some)
}

// The epoch of a round's coordinator, or none where it is not trusted.
pub fn coordinator_epoch<R: QuorumRule>(rule: &R, list: &[Option<u32>], round: u32) -> Option<u32>
    ensures { result ≡ epoch_of list.now (coordinator (R.QuorumRule.processes rule.now) round) }
{
    *list.get(ProcessId::coordinator_of(rule, round).place())?
}

// Whether a process must leave its round, by its coordinator's epoch.
pub fn must_go(epoch: Option<u32>, memory: &Memory) -> bool
    ensures { result ≡ must_leave epoch memory.now }
{
    let Some(now) = epoch else {
        return true;
    };
    memory.round < memory.heard || memory.epoch.is_some_and(|noted| noted < now)
}

// Whether a round may be entered next.
fn is_next<R: QuorumRule>(rule: &R, list: &[Option<u32>], memory: &Memory, round: u32) -> bool
    ensures { result ≡ may_enter (R.QuorumRule.processes rule.now) list.now memory.now round }
{
    memory.round < round
        && memory.heard <= round
        && round <= MAX_ROUND
        && coordinator_epoch(rule, list, round).is_some()
}

// The smallest round above the present one, at least the one heard of, whose coordinator is trusted; none
// where no round up to 999,999 is one.
pub fn find_next<R: QuorumRule>(rule: &R, list: &[Option<u32>], memory: &Memory) -> Option<u32>
    ensures least { Least (may_enter (R.QuorumRule.processes rule.now) list.now memory.now) result }
    ensures value { result ≡ next_round (R.QuorumRule.processes rule.now) list.now memory.now }
{
    if MAX_ROUND <= memory.round || MAX_ROUND < memory.heard {
        return None;
    }
    // The candidates are copied into a tray, and the best of it is taken, as of any other tray.
    let start = (memory.round + 1).max(memory.heard);
    let mut slots = [Round::default(); 9];
    let mut tray = Tray::new(&mut slots);
    for number in start..start + rule.size() {
        if is_next(rule, list, memory, number) {
            let _ = tray.put(Round { number });
        }
    }
    best_of_tray(&tray).map(|round| round.number)
}
