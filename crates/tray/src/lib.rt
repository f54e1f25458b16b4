//! The tray, a list in a slice that its owner lends, and the best element of a slice.
#![tactic(auto)]

ghost use Rattle.std.specs.Prelude.{◌≤◌, length};

pub mod choice;
pub mod kinds;
mod methods;
pub mod preference;

// A list in a lent slice: its elements are the first `len` of the slots. With no heap, the room for it
// is its owner's. It has no model, whose value would lack the slice's name, of which the contracts speak.
#[derive(Drop)]
pub struct Tray<'a, T> {
    slots: &'a mut [T],
    len: usize,
    ghost fits: { len ≤ length slots.now },
}

// A put found no free slot.
#[derive(Clone, Copy, PartialEq, Eq, Debug)]
pub struct Full;

#[cfg(test)]
mod tests {
    use super::Tray;
    use super::choice::{best, best_of_tray};
    use super::kinds::{Estimate, Round};

    #[test]
    fn a_tray_of_three_places(rt: HostRuntime) {
        let mut slots = [0u32; 3];
        let mut tray = Tray::new(&mut slots);
        for (x, put) in [(5, true), (7, true), (9, true), (11, false)] {
            assert_eq!(rt; tray.put(x).is_ok(), put);
        }
        for (place, found) in [
            (0, None),
            (1, Some(5)),
            (3, Some(9)),
            (4, None),
            (usize::MAX, None),
        ] {
            assert_eq!(rt; tray.at(place), found);
        }
        for (place, taken, left) in [
            (0, None, 3),
            (4, None, 3),
            (2, Some(7), 2),
            (2, Some(9), 1),
            (2, None, 1),
            (1, Some(5), 0),
        ] {
            assert_eq!(rt; (tray.take_out(place), tray.len()), (taken, left));
        }
        assert_eq!(rt; tray.places(), 3);
    }

    #[test]
    fn the_best_is_the_first_of_equals(rt: HostRuntime) {
        let offers = [(3, 9, 2), (2, 7, 3), (1, 5, 0), (4, 8, 3)];
        let mut slots = [Estimate::default(); 9];
        let mut tray = Tray::new(&mut slots);
        assert_eq!(rt; best_of_tray(&tray), None);
        for (sender, reading, stamp) in offers {
            assert!(rt;
                tray.put(Estimate {
                    sender,
                    reading,
                    stamp,
                })
                .is_ok()
            );
        }
        assert_eq!(rt;
            best_of_tray(&tray),
            Some(Estimate {
                sender: 2,
                reading: 7,
                stamp: 3,
            })
        );
        let mut rounds = [Round { number: 4 }; 4];
        rounds[0].number = 6;
        rounds[2].number = 9;
        assert_eq!(rt; best(&rounds), Some(2));
    }
}
