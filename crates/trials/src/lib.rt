//! Examples of a panel's calls, run as tests.
#![tactic(auto)]

#[cfg(test)]
mod tests {
    use agreement::call::{Call, told};
    use panel::panel::Panel;
    use process::memory::Status;
    use process::message::{Kind, Message};
    use quorum::majority::Majority;
    use std::test::Fail;
    use store::Store;
    use store::content::{CellName, Content};
    use store::table::Table;
    use tray::Tray;

    // A message with no stamp.
    fn message(sender: u32, addressee: u32, kind: Kind, round: u32, reading: u32) -> Message {
        Message {
            sender,
            addressee,
            kind,
            round,
            reading,
            stamp: 0,
        }
    }

    #[test]
    fn one_house_alone_decides(rt: HostRuntime) -> Result<(), Fail> {
        let mut slots = [Message::default(); 4];
        let mut tray = Tray::new(&mut slots);
        let mut panel = Panel::new(Table::new(), Majority::new(1)?);
        assert_eq!(rt; told(panel.recover(&mut tray, 1, None)), (0, 0));
        assert_eq!(rt; told(panel.propose(&mut tray, 1, 407, None)), (0, 4));
        assert_eq!(rt;
            panel.store().read(1, CellName::Decision.number()).ok(),
            Some(Some(Content {
                number: 407,
                stamp: 0,
            }))
        );
        Ok(())
    }

    #[test]
    fn two_houses_and_a_cut(rt: HostRuntime) -> Result<(), Fail> {
        let mut slots = [Message::default(); 8];
        let mut tray = Tray::new(&mut slots);
        let mut panel = Panel::new(Table::new(), Majority::new(2)?);
        for (call, count) in [
            (Call::Recover(1, None), 0),
            (Call::Recover(2, None), 0),
            (Call::Propose(1, 5, None), 3),
            (Call::Propose(2, 7, None), 3),
            (Call::Deliver(1, None), 2),
            (Call::Deliver(3, None), 2),
            (Call::Deliver(4, Some(1)), 1),
        ] {
            assert_eq!(rt; told(panel.call(&mut tray, &call)), (0, count));
        }
        assert_eq!(rt; tray.at(5), Some(message(2, 1, Kind::Decide, 0, 5)));
        assert_eq!(rt; tray.at(6), None);
        assert!(rt; matches!(panel.status(2), Some(Status::Down)));
        Ok(())
    }

    // Each row is a call, and the number and count that are told. A second row for a number meets two
    // causes, and is told the lower.
    #[test]
    fn every_refusal(rt: HostRuntime) -> Result<(), Fail> {
        let mut slots = [Message::default(); 9];
        let mut tray = Tray::new(&mut slots);
        let mut panel = Panel::new(Table::new(), Majority::new(3)?);
        for (call, answer) in [
            (Call::Recover(1, Some(100)), (1, 0)),
            (Call::Recover(0, Some(100)), (1, 0)),
            (Call::Recover(0, None), (2, 0)),
            (Call::Propose(4, 0, None), (2, 0)),
            (Call::Deliver(1, None), (3, 0)),
            (Call::Deliver(0, Some(100)), (1, 0)),
            (Call::Lose(1), (3, 0)),
            (Call::Crash(1), (5, 0)),
            (Call::Propose(1, 0, None), (5, 0)),
            (Call::Look(1, &[Some(0), Some(0)][..], None), (5, 0)),
            (Call::Recover(1, None), (0, 0)),
            (Call::Recover(1, None), (4, 0)),
            (Call::Recover(1, Some(100)), (1, 0)),
            (Call::Recover(2, None), (0, 0)),
            (Call::Again(1, None), (8, 0)),
            (Call::Look(1, &[Some(0), Some(0)][..], None), (8, 0)),
            (Call::Propose(1, 0, None), (9, 0)),
            (Call::Propose(1, 0, Some(100)), (1, 0)),
            (Call::Propose(2, 99_999_999, None), (0, 4)),
            (Call::Propose(2, 5, None), (7, 0)),
            (Call::Propose(2, 0, None), (7, 0)),
            (Call::Look(2, &[Some(0), Some(0)][..], None), (10, 0)),
        ] {
            assert_eq!(rt; told(panel.call(&mut tray, &call)), answer);
        }
        for waiting in [
            message(1, 2, Kind::Ack, 1, 0),
            message(4, 3, Kind::Ack, 1, 0),
            message(2, 1, Kind::Decide, 0, 7),
            message(1, 2, Kind::NewRound, 999_999, 0),
        ] {
            assert!(rt; tray.put(waiting).is_ok());
        }
        for (call, answer) in [
            (Call::Deliver(3, None), (12, 0)),
            (Call::Deliver(3, Some(100)), (1, 0)),
            (Call::Deliver(4, None), (3, 0)),
            (Call::Deliver(2, None), (5, 0)),
            (Call::Deliver(6, None), (0, 0)),
            (Call::Look(2, &[None, Some(0), None][..], None), (11, 0)),
            (
                Call::Look(2, &[None, Some(1_000_000), None][..], None),
                (10, 0),
            ),
            (Call::Deliver(5, None), (0, 1)),
            (Call::Again(1, None), (6, 0)),
            (Call::Propose(1, 0, None), (6, 0)),
            (
                Call::Look(2, &[Some(0), Some(0), Some(0)][..], None),
                (0, 2),
            ),
            (Call::Lose(1), (0, 0)),
            (Call::Crash(1), (0, 0)),
        ] {
            assert_eq!(rt; told(panel.call(&mut tray, &call)), answer);
        }
        assert_eq!(rt; tray.len(), 6);
        Ok(())
    }

    // A list of calls with one place too few for answers: the last call is not made.
    #[test]
    fn a_list_of_calls(rt: HostRuntime) -> Result<(), Fail> {
        let mut slots = [Message::default(); 4];
        let mut tray = Tray::new(&mut slots);
        let mut panel = Panel::new(Table::new(), Majority::new(2)?);
        let calls = [
            Call::Recover(1, None),
            Call::Propose(1, 407, None),
            Call::Look(1, &[Some(0), None][..], None),
            Call::Crash(2),
            Call::Crash(1),
        ];
        let mut answers = [Ok(0); 4];
        assert_eq!(rt; panel.sit(&mut tray, &calls, &mut answers), 4);
        assert_eq!(rt; answers.map(told), [(0, 0), (0, 3), (0, 2), (5, 0)]);
        assert!(rt; matches!(panel.status(1), Some(Status::Up(_))));
        Ok(())
    }
}
