//! What is shown of a panel.
use listing::lines::{Note, TrayLine};
use listing::stored::{cell_line, count_cells};
use process::message::Message;
use std::io;
use std::io::Write;
use store::Store;
use tray::Tray;

// The cells that hold something, by process and then by cell.
pub fn show_cells<S: Store, W: Write>(store: &S, out: &mut W) -> io::Result<()> {
    let head = Note::CellCount(count_cells(store));
    writeln!(out, "{head}")?;
    for line in (0..36).filter_map(|k| cell_line(store, k)) {
        writeln!(out, "{line}")?;
    }
    Ok(())
}

// The messages that wait, in their places.
pub fn show_tray<W: Write>(tray: &Tray<Message>, out: &mut W) -> io::Result<()> {
    let head = Note::TrayCount(tray.len(), tray.places());
    writeln!(out, "{head}")?;
    for (i, message) in tray.as_slice().iter().enumerate() {
        let line = TrayLine {
            place: i + 1,
            message: *message,
        };
        writeln!(out, "{line}")?;
    }
    Ok(())
}
