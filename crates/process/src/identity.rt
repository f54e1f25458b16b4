//! Process numbers and messages that were tested.
ghost use Rattle.std.specs.Prelude.{◌≤◌};

mod tested;

use super::message::Message;

// The number of a process, from 1 to 9.
#[derive(Clone, Copy, PartialEq, Eq, Debug)]
pub struct ProcessId {
    pub number: u32,
    ghost low: { 1 ≤ number },
    ghost high: { number ≤ 9 },
}

// A message between two of at most nine processes.
#[derive(Clone, Copy)]
pub struct Letter {
    pub message: Message,
    ghost sender_low: { 1 ≤ message.sender },
    ghost sender_high: { message.sender ≤ 9 },
    ghost addressee_low: { 1 ≤ message.addressee },
    ghost addressee_high: { message.addressee ≤ 9 },
}
