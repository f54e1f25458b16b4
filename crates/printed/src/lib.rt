//! A store printed as text: 36 lines of 16 bytes.
#![tactic(auto)]

ghost use Rattle.std.specs.Prelude.{◌≡◌, MatchResult};
ghost use Rattle.printed.specs.Faults.{LineWrong, TextWrong, ShapeWrong};
ghost use Rattle.printed.specs.Lines.{line, Roomy};
ghost use Rattle.printed.specs.Texts.{Shows, Printed};

pub mod fault;
mod part;
pub mod printed_store;
pub mod printing;

use fault::{LineFault, StoreFault};
use part::Part;
use store::content::{Content, cell_at, is_number_fit, is_stamp_fit};

// What a line shows, only its shape tested; `at` is its number.
fn read_line(bytes: &[u8; 16], at: usize) -> Result<Option<Content>, LineFault>
    ensures { MatchResult result (λ v. Roomy v × (bytes.now ≡ line v)) (ShapeWrong bytes.now at) }
{
    let first = Part::new(&bytes[0..8], at, 0).value()?;
    if bytes[8] != b' ' {
        return Err(LineFault::Blank(at));
    }
    let content = Part::new(&bytes[9..15], at, 9).rest(first)?;
    if bytes[15] != b'\n' {
        return Err(LineFault::LineFeed(at));
    }
    Ok(content)
}

// That a line shows what its cell may hold; `at` is its number.
fn check_line(bytes: &[u8; 16], at: usize, cell: u32) -> Result<(), LineFault>
    ensures { MatchResult result (λ _. Shows cell bytes.now) (LineWrong cell bytes.now at) }
{
    let Some(content) = read_line(bytes, at)? else {
        return Ok(());
    };
    if !is_number_fit(cell, content.number) {
        return Err(LineFault::Number(at));
    }
    if !is_stamp_fit(cell, content.stamp) {
        return Err(LineFault::Stamp(at));
    }
    Ok(())
}

// That a text is a printed store; else the first thing that is wrong with it.
pub fn inspect(bytes: &[u8]) -> Result<(), StoreFault>
    ensures { MatchResult result (λ _. Printed bytes.now) (TextWrong bytes.now) }
{
    if bytes.len() != 576 {
        return Err(StoreFault::Length);
    }
    let (lines, _) = bytes.as_chunks::<16>();
    for (k, line) in lines.iter().enumerate() {
        let (_, cell) = cell_at(k as u32);
        check_line(line, k + 1, cell)?;
    }
    Ok(())
}

#[cfg(test)]
mod tests {
    use super::inspect;
    use super::printed_store::PrintedStore;
    use super::printing::blank_text;
    use store::Store;
    use store::content::{CellName, Content};

    // What a caller is told of a text that is refused: the number, the line and the column.
    fn told(bytes: &[u8]) -> Option<(u32, usize, usize)> {
        inspect(bytes).err().map(|fault| {
            let (line, column) = fault.line_and_column();
            (fault.number(), line, column)
        })
    }

    // A blank text in which a line, counted from 1, is overwritten.
    fn with_line(line: usize, bytes: &[u8; 16]) -> [u8; 576] {
        let mut text = blank_text();
        if 1 <= line && line <= 36 {
            text[16 * (line - 1)..16 * line].copy_from_slice(bytes);
        }
        text
    }

    #[test]
    fn texts_and_what_is_told_of_them(rt: HostRuntime) {
        for (line, bytes, said) in [
            (1, *b"99999999      0\n", None),
            (35, *b"       1 999999\n", None),
            (1, *b"       0      0\n", Some((16, 1, 1))),
            (2, *b" 1000000      0\n", Some((16, 2, 1))),
            (2, *b"  999999      1\n", Some((16, 2, 10))),
            (4, *b"       0      1\n", Some((16, 4, 1))),
            (1, *b"00000407      0\n", Some((16, 1, 1))),
            (1, *b"    0407      0\n", Some((16, 1, 5))),
            (1, *b"     4 7      0\n", Some((16, 1, 7))),
            (1, *b"    407       0\n", Some((16, 1, 8))),
            (7, *b"     407x     0\n", Some((16, 7, 9))),
            (7, *b"     407 000001\n", Some((16, 7, 10))),
            (7, *b"     407       \n", Some((16, 7, 15))),
            (9, *b"         7     \n", Some((16, 9, 10))),
            (36, *b"              0\n", Some((16, 36, 15))),
            (36, *b"       0      0 ", Some((16, 36, 16))),
            (36, *b"\n               ", Some((16, 36, 1))),
        ] {
            assert_eq!(rt; (line, told(&with_line(line, &bytes))), (line, said));
        }
        let mut two_wrong = with_line(5, b"       x       \n");
        two_wrong[559] = b' ';
        assert_eq!(rt; told(&two_wrong), Some((16, 5, 8)));
        assert_eq!(rt; told(&two_wrong[0..575]), Some((16, 0, 0)));
        assert_eq!(rt; told(&[b' '; 577]), Some((16, 0, 0)));
        assert_eq!(rt; told(&[]), Some((16, 0, 0)));
    }

    #[test]
    fn what_is_written_is_read_back(rt: HostRuntime) {
        let mut text = blank_text();
        let pair = Content {
            number: 407,
            stamp: 12,
        };
        {
            let mut store = PrintedStore::open(&mut text);
            assert!(rt; store.write(9, CellName::Pair.number(), pair).is_ok());
            assert!(rt; store.write(9, 5, pair).is_err());
            assert!(rt; store.write(9, 1, pair).is_err());
            assert_eq!(rt;
                store.read(9, CellName::Pair.number()).ok(),
                Some(Some(pair))
            );
            assert_eq!(rt; store.read(8, CellName::Pair.number()).ok(), Some(None));
        }
        assert_eq!(rt; &text[544..560], b"     407     12\n".as_slice());
        assert_eq!(rt; text == with_line(35, b"     407     12\n"), true);
    }

    #[test]
    fn a_text_is_opened_or_handed_back(rt: HostRuntime) {
        let mut text = with_line(5, b"       x      0\n");
        if let Err(refused) = PrintedStore::try_open(&mut text) {
            assert_eq!(rt; refused.fault.line_and_column(), (5, 8));
            assert_eq!(rt; &refused.bytes[64..80], b"       x      0\n".as_slice());
        }
        assert_eq!(rt; PrintedStore::try_open(&mut text).is_ok(), false);
        text[71] = b'7';
        let pair = Content {
            number: 7,
            stamp: 0,
        };
        assert_eq!(rt; PrintedStore::try_open(&mut text).is_ok(), true);
        if let Ok(store) = PrintedStore::try_open(&mut text) {
            assert_eq!(rt; store.read(2, 1).ok(), Some(Some(pair)));
        }
    }
}
