//! Scripts of a sitting: what a line of one asks for.
#![tactic(auto)]

pub mod calls;
pub mod commands;
pub mod laws;
pub mod row;
pub mod setup;
pub mod words;

#[cfg(test)]
mod tests {
    use super::commands::{Command, read_command};
    use super::setup::{RuleLine, read_places, read_rule};
    use super::words::read_number;
    use agreement::call::Call;

    #[test]
    fn numbers(rt: HostRuntime) {
        for (word, number) in [
            ("0", Some(0)),
            ("000407", Some(407)),
            ("4294967295", Some(u32::MAX)),
            ("00000000004294967295", Some(u32::MAX)),
            ("4294967296", None),
            ("99999999999999999999999999", None),
            ("", None),
            ("+1", None),
            ("1a", None),
        ] {
            assert_eq!(rt; read_number(word.as_bytes()), number);
        }
    }

    #[test]
    fn lines_and_what_they_ask_for(rt: HostRuntime) {
        let ten = [1, 2, 3, 4, 5, 6, 7, 8, 9, 10].map(Some);
        let calls: [(&str, Call<&[Option<u32>]>); 8] = [
            ("recover 1", Call::Recover(1, None)),
            ("  recover   1 cut 3 ", Call::Recover(1, Some(3))),
            ("propose 1 407 cut 0", Call::Propose(1, 407, Some(0))),
            ("look 1", Call::Look(1, &[], None)),
            ("look 1 - 4 -", Call::Look(1, &[None, Some(4), None], None)),
            ("look 1 - cut 2", Call::Look(1, &[None], Some(2))),
            (
                "look 1 1 2 3 4 5 6 7 8 9 10 11 12",
                Call::Look(1, &ten, None),
            ),
            ("lose 1", Call::Lose(1)),
        ];
        for (line, told) in calls {
            let command = read_command(line.as_bytes());
            let Some(Command::Make(call)) = command else {
                panic!(rt; "{line} asks for no call");
            };
            assert_eq!(rt; (line, call.widened().lent()), (line, told));
        }
        for line in [
            "recover 1 cut",
            "recover 1 cut 3 4",
            "recover",
            "propose 1",
            "look 1 1 2 3 4 5 6 7 8 9 10 11 x",
            "lose 1 cut 2",
            "Crash 1",
            "cells 1",
            "save a b",
            "\tcells",
            "   ",
        ] {
            assert_eq!(rt; (line, read_command(line.as_bytes())), (line, None));
        }
        assert_eq!(rt; read_command(b"cells"), Some(Command::Cells));
        assert_eq!(rt;
            read_command(b"save a"),
            Some(Command::Save(b"a".as_slice()))
        );
        assert_eq!(rt; read_places(b"tray 12"), Some(12));
        assert_eq!(rt; read_places(b"tray"), None);
        assert_eq!(rt; read_rule(b"rule majority 5"), Some(RuleLine::Majority(5)));
        assert_eq!(rt; read_rule(b"rule weights 1 x"), None);
    }
}
