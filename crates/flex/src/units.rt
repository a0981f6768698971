//! The tests that a list of units has to pass to become a unit map.
ghost use Rattle.std.specs.Prelude.{◌≡◌};
ghost use Rattle.flex.specs.Units.{all_apart, counts, sound};

use super::unit::Unit;
use super::unit_map::UNITS;
use store::count::MOST_BLOCKS;

/// As many units as a map may have, a stated end that a store may reach, and no count of 0.
fn have_counts(units: &[Unit], end: u32) -> bool
    ensures { result ≡ counts units.now end }
{
    !units.is_empty()
        && units.len() <= UNITS
        && end <= MOST_BLOCKS
        && units.iter().all(|unit| unit.is_counted())
}

/// No block in two units.
fn are_apart(units: &[Unit]) -> bool
    ensures { result ≡ all_apart units.now }
{
    let mut left = units;
    while let [unit, others @ ..] = left {
        if !others.iter().all(|other| unit.is_apart(*other)) {
            return false;
        }
        left = others;
    }
    true
}

/// Counts, overlap, end.
pub(super) fn are_sound(units: &[Unit], end: u32) -> bool
    ensures { result ≡ sound units.now end }
{
    have_counts(units, end) && are_apart(units) && units.iter().all(|unit| unit.is_inside(end))
}
