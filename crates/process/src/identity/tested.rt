ghost use Rattle.std.specs.Prelude.{◌≡◌, ◌-◌, ◌<◌, ◌&&◌, is_some, IfSome, nat_le};
ghost use Rattle.process.specs.Messages.{well_formed};
ghost use Rattle.process.specs.Rounds.{coordinator};

use super::super::message::Message;
use super::{Letter, ProcessId};
use quorum::QuorumRule;

impl ProcessId {
    // The process of this number, if the rule has it.
    pub fn new<R: QuorumRule>(rule: &R, number: u32) -> Option<ProcessId>
        ensures test { is_some result ≡ nat_le 1 number && nat_le number (R.QuorumRule.processes rule.now) }
        ensures kept { IfSome result (λ p. p.number ≡ number) }
    {
        if (1..=rule.size()).contains(&number) {
            Some(ProcessId { number })
        } else {
            None
        }
    }

    // The coordinator of a round.
    pub(crate) fn coordinator_of<R: QuorumRule>(rule: &R, round: u32) -> ProcessId
        ensures { result.number ≡ coordinator (R.QuorumRule.processes rule.now) round }
    {
        ProcessId {
            number: round % rule.size() + 1,
        }
    }

    // Where it stands in what is indexed by process.
    pub fn place(self) -> usize
        ensures value { result ≡ self.number - 1 }
        ensures within { result < 9 }
    {
        self.number as usize - 1
    }
}

impl Letter {
    // The message, if its fields are those that its kind may have among the rule's processes.
    pub fn new<R: QuorumRule>(rule: &R, message: Message) -> Option<Letter>
        ensures test { is_some result ≡ well_formed (R.QuorumRule.processes rule.now) message }
        ensures kept { IfSome result (λ l. l.message ≡ message) }
    {
        if message.is_well_formed(rule.size()) {
            Some(Letter { message })
        } else {
            None
        }
    }

    // The process that it is from.
    pub(crate) fn sender(self) -> ProcessId
        ensures { result.number ≡ self.message.sender }
    {
        ProcessId {
            number: self.message.sender,
        }
    }

    // The process that it is for.
    pub fn addressee(self) -> ProcessId
        ensures { result.number ≡ self.message.addressee }
    {
        ProcessId {
            number: self.message.addressee,
        }
    }
}
