//! The text of what is told of a sitting.
#![tactic(auto)]

pub mod lines;
mod listed;
pub mod record;
pub mod stored;

#[cfg(test)]
mod tests {
    use super::lines::Answer;
    use super::record::ProcessLine;
    use process::memory::Status;
    use std::test::Fail;

    #[test]
    fn texts(rt: HostRuntime) -> Result<(), Fail> {
        let answer = Answer {
            number: 0,
            actions: 27,
        };
        assert_eq!(rt; answer.to_string(rt.alloc())?.as_str(), "0 27");
        let line = ProcessLine {
            process: 3,
            status: Status::Down,
        };
        assert_eq!(rt; line.to_string(rt.alloc())?.as_str(), "process 3 down");
        Ok(())
    }
}
