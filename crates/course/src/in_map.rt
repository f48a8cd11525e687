// In-maps: for each of the eight markers its node, with 0 outside the in-set.
// Kept as numbers: only the markers of the in-set are read; an Option would be taken apart each time.
ghost use Rattle.std.specs.Prelude.{◌≡◌, ◌<◌};
ghost use Rattle.course.specs.Forward.{only as only_at, merged};

// The in-map of one marker.
pub(crate) fn only(marker: usize, node: usize) -> [usize; 8]
    requires { marker < 8 }
    ensures { result ≡ only_at marker node }
{
    let mut into = [0; 8];
    into[marker] = node;
    into
}

// Two in-maps in one: the left one at the markers of the set, the right one at the others.
pub(crate) fn merge(set: [bool; 8], left: [usize; 8], right: [usize; 8]) -> [usize; 8]
    ensures { result ≡ merged set left right }
{
    let mut into = right;
    for (marker, &on) in set.iter().enumerate() {
        if on {
            into[marker] = left[marker];
        }
    }
    into
}
