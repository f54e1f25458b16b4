//! The best element of a slice.
ghost use Rattle.std.specs.Prelude.{◌≡◌};
ghost use Rattle.tray.specs.Best.{Best, best_of, Chosen};
ghost use Rattle.tray.specs.Items.{items};

use super::Tray;
use super::preference::Preference;

// The first place, counted from 1, whose element is preferred at least as much as every other; an
// empty slice has none.
pub fn best<T: Preference>(items: &[T]) -> Option<usize>
    ensures { Best T.Preference.prefers items.now result }
{
    items.first()?;
    // By the index: with a reference to the best so far, each step waits for the choice of the one before.
    let mut top = 0;
    for i in 1..items.len() {
        if !items[top].at_least(&items[i]) {
            top = i;
        }
    }
    Some(top + 1)
}

// The best element of a tray.
pub fn best_of_tray<T: Preference + Copy>(tray: &Tray<'_, T>) -> Option<T>
    ensures chosen { Chosen T.Preference.prefers (items tray.now) result }
    ensures value { result ≡ best_of T.Preference.prefers (items tray.now) }
{
    let place = best(tray.as_slice())?;
    tray.at(place)
}
