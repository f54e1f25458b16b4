//! One process of a panel: its messages, its memory, and its steps.
#![tactic(auto)]

pub mod identity;
pub mod lists;
pub mod memory;
pub mod message;
pub mod rows;
pub mod turn;

#[cfg(test)]
mod tests {
    use super::identity::{Letter, ProcessId};
    use super::memory::{Memory, OwnCells};
    use super::message::{Kind, Message};
    use super::turn::steps::{deliver_turn, propose_turn, recover_turn};
    use quorum::majority::Majority;
    use std::test::Fail;

    #[test]
    fn fields_that_a_kind_may_have(rt: HostRuntime) {
        for (sender, addressee, kind, round, reading, stamp, right) in [
            (1, 3, Kind::NewRound, 1, 0, 0, true),
            (1, 3, Kind::NewRound, 0, 0, 0, false),
            (1, 3, Kind::NewRound, 1, 1, 0, false),
            (1, 1, Kind::Ack, 999_999, 0, 0, false),
            (1, 4, Kind::Ack, 999_999, 0, 0, false),
            (0, 3, Kind::Ack, 999_999, 0, 0, false),
            (2, 3, Kind::Ack, 999_999, 0, 0, true),
            (2, 3, Kind::Ack, 1_000_000, 0, 0, false),
            (2, 3, Kind::Estimate, 1, 99_999_999, 999_999, true),
            (2, 3, Kind::Estimate, 1, 100_000_000, 0, false),
            (2, 3, Kind::Estimate, 1, 1, 1_000_000, false),
            (2, 3, Kind::NewEstimate, 1, 1, 1, false),
            (2, 3, Kind::Decide, 0, 1, 0, true),
            (2, 3, Kind::Decide, 1, 1, 0, false),
            (2, 3, Kind::Decide, 0, u32::MAX, 0, false),
        ] {
            let message = Message {
                sender,
                addressee,
                kind,
                round,
                reading,
                stamp,
            };
            assert_eq!(rt; message.is_well_formed(3), right);
        }
    }

    // How many actions a message to process 2 of five leads to, and the memory after it.
    fn delivered(
        rule: &Majority,
        memory: Memory,
        sender: u32,
        kind: Kind,
        reading: u32,
    ) -> Result<(usize, Memory), Fail> {
        let message = Message {
            sender,
            addressee: 2,
            kind,
            round: 1,
            reading,
            stamp: 0,
        };
        let letter = Letter::new(rule, message).ok_or("not well-formed")?;
        let turn = deliver_turn(rule, memory, letter, None);
        Ok((turn.plan.actions().len(), turn.memory))
    }

    #[test]
    fn a_coordinator_settles(rt: HostRuntime) -> Result<(), Fail> {
        let rule = Majority::new(5)?;
        let p = ProcessId::new(&rule, 2).ok_or("no process")?;
        let idle = recover_turn(&rule, p, OwnCells::default()).memory;
        let proposed = propose_turn(&rule, p, idle, 407);
        assert_eq!(rt; proposed.plan.actions().len(), 6);
        let mut memory = proposed.memory;
        for (sender, kind, reading, actions) in [
            (1, Kind::Estimate, 512, 0),
            (1, Kind::Estimate, 88, 0),
            (3, Kind::Estimate, 88, 5),
            (4, Kind::Ack, 0, 0),
            (4, Kind::Ack, 0, 0),
            (5, Kind::Ack, 0, 5),
            (5, Kind::Ack, 0, 0),
        ] {
            let (count, after) = delivered(&rule, memory, sender, kind, reading)?;
            assert_eq!(rt; (sender, count), (sender, actions));
            memory = after;
        }
        assert_eq!(rt; memory.reading, 512);
        Ok(())
    }
}
