// Sets of markers: a flag for each marker.
ghost use Rattle.std.specs.Prelude.{◌≡◌};
ghost use Rattle.expression.specs.Markers.{just as just_of, both as both_of, apart as apart_from, within as within_of};

use crate::expression::MARKERS;
use std::array;

// The set that has one marker alone; a number that is no marker gives the empty set.
pub(crate) fn just(marker: usize) -> [bool; MARKERS]
    ensures { result ≡ just_of marker }
{
    let mut set = [false; MARKERS];
    if marker < MARKERS {
        set[marker] = true;
    }
    set
}

// The markers that one set or the other has.
pub(crate) fn both(left: [bool; MARKERS], right: [bool; MARKERS]) -> [bool; MARKERS]
    ensures { result ≡ both_of left right }
{
    array::from_fn(|marker| left[marker] || right[marker])
}

// Whether the two sets have no marker in common.
pub(crate) fn apart(left: [bool; MARKERS], right: [bool; MARKERS]) -> bool
    ensures { result ≡ apart_from left right }
{
    left.iter()
        .zip(&right)
        .all(|(one, other)| !(*one && *other))
}

// Whether the second set has every marker of the first.
pub(crate) fn within(left: [bool; MARKERS], right: [bool; MARKERS]) -> bool
    ensures { result ≡ within_of left right }
{
    left.iter().zip(&right).all(|(one, other)| !*one || *other)
}
