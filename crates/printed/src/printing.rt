//! Printing a line, and the text of a store with nothing in it.
ghost use Rattle.std.specs.Prelude.{◌≡◌, ◌<◌, length, Some};
ghost use Rattle.store.specs.Cells.{absent};
ghost use Rattle.printed.specs.Fields.{figure, leading, justified};
ghost use Rattle.printed.specs.Lines.{line};
ghost use Rattle.printed.specs.Texts.{Printed, text_cells};

use store::content::Content;

// The line of a cell that holds nothing.
const BLANK: [u8; 16] = *b"               \n";

// The byte for the last figure of a number, and a blank for 0.
fn last_figure(m: u32) -> u8
    ensures { result ≡ figure m }
{
    if m == 0 { b' ' } else { b'0' + (m % 10) as u8 }
}

// Writes a number right-justified, and blanks for 0.
fn write_leading(columns: &mut [u8], n: u32)
    ensures { columns.new ≡ leading (length columns.old) n }
{
    if let Some((last, front)) = columns.split_last_mut() {
        *last = last_figure(n);
        write_leading(front, n / 10);
    }
}

// Writes a number right-justified.
fn write_number(columns: &mut [u8], n: u32)
    requires { 0 < length columns.old }
    ensures { columns.new ≡ justified (length columns.old) n }
{
    let (last, front) = columns.split_last_mut().unwrap();
    *last = b'0' + (n % 10) as u8;
    write_leading(front, n / 10);
}

// The line that shows a content.
fn print_content(content: Content) -> [u8; 16]
    ensures { result ≡ line (Some content) }
{
    let mut out = [b' '; 16];
    write_number(&mut out[0..8], content.number);
    write_number(&mut out[9..15], content.stamp);
    out[15] = b'\n';
    out
}

// The line that shows what a cell holds.
pub fn print_line(held: Option<Content>) -> [u8; 16]
    ensures { result ≡ line held }
{
    match held {
        Some(content) => print_content(content),
        None => BLANK,
    }
}

// The text of a store whose cells are all absent.
pub fn blank_text() -> [u8; 576]
    ensures printed { Printed result }
    ensures absent { text_cells result ≡ absent }
{
    // Whole lines: byte by byte, by `from_fn`, it costs ten times as much.
    let lines = [BLANK; 36];
    let mut text = [b' '; 576];
    text.copy_from_slice(lines.as_flattened());
    text
}
