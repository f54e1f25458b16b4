//! The lines that are told.
ghost use Rattle.std.specs.Prelude.{Some};
ghost use Rattle.listing.specs.Texts.{answer_text, cell_text, note_text, tray_text};

use printed::fault::StoreFault;
use process::message::Message;
use std::fmt;
use store::content::{CellName, Content};

// An answer's number, and how many actions were done.
#[derive(Clone, Copy)]
pub struct Answer {
    pub number: u32,
    pub actions: u32,
}

// What else is said in a line: that a line of the script was not understood, by its number; how many cells
// hold something; how many messages wait, and in how many places; what is wrong with the text of a store.
#[derive(Clone, Copy)]
pub enum Note {
    Unread(u64),
    CellCount(usize),
    TrayCount(usize, usize),
    Fault(StoreFault),
}

// A process's cell, and what it holds. The cell is any number, since a name in a public field would ask more of who
// fills it; what is no cell is told as the last.
#[derive(Clone, Copy)]
pub struct CellLine {
    pub process: u32,
    pub cell: u32,
    pub content: Content,
}

// A message at its place in the tray.
#[derive(Clone, Copy)]
pub struct TrayLine {
    pub place: usize,
    pub message: Message,
}

impl fmt::Display for Answer {
    ghost output = { λ a. Some (answer_text a) };

    fn fmt<W: fmt::Write>(&self, f: &mut fmt::Formatter<W>) -> fmt::Result {
        let Answer { number, actions } = *self;
        write!(f, "{number} {actions}")
    }
}

impl fmt::Display for Note {
    ghost output = { λ n. Some (note_text n) };

    fn fmt<W: fmt::Write>(&self, f: &mut fmt::Formatter<W>) -> fmt::Result {
        match *self {
            Note::Unread(line) => write!(f, "? {line}"),
            Note::CellCount(count) => write!(f, "cells {count}"),
            Note::TrayCount(count, places) => write!(f, "tray {count} of {places}"),
            Note::Fault(fault) => {
                let number = fault.number();
                let (line, column) = fault.line_and_column();
                write!(f, "{number} {line} {column}")
            }
        }
    }
}

impl fmt::Display for CellLine {
    ghost output = { λ l. Some (cell_text l) };

    fn fmt<W: fmt::Write>(&self, f: &mut fmt::Formatter<W>) -> fmt::Result {
        let CellLine {
            process,
            cell,
            content: Content { number, stamp },
        } = *self;
        let name = CellName::try_from(cell).unwrap_or(CellName::Decision);
        write!(f, "{process} {name} {number} {stamp}")
    }
}

impl fmt::Display for TrayLine {
    ghost output = { λ l. Some (tray_text l) };

    fn fmt<W: fmt::Write>(&self, f: &mut fmt::Formatter<W>) -> fmt::Result {
        let TrayLine {
            place,
            message: Message {
                sender,
                addressee,
                kind,
                round,
                reading,
                stamp,
            },
        } = *self;
        write!(
            f,
            "{place} {sender} {addressee} {kind} {round} {reading} {stamp}"
        )
    }
}
