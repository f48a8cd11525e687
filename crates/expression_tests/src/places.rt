// Raw places of each form, and what admission tells of a list of them.
use expression::admit;
use expression::expression::Expression;
use expression::raw::RawPlace;
use expression::refusal::Refusal;
use expression::term::Term;

// A place with no term of its own.
pub(crate) fn raw(letter: char, number: usize, part: usize, other_part: usize) -> RawPlace {
    RawPlace {
        letter,
        term: Term::Constant(0),
        other_term: Term::Constant(0),
        number,
        part,
        other_part,
    }
}

// A node without arrows.
pub(crate) fn node() -> RawPlace {
    raw('N', 0, 0, 0)
}

// A graph variable.
pub(crate) fn graph(variable: usize) -> RawPlace {
    raw('G', variable, 0, 0)
}

// A node left open under a marker.
pub(crate) fn out(marker: usize) -> RawPlace {
    raw('O', marker, 0, 0)
}

// A part under another marker.
pub(crate) fn mark(marker: usize, part: usize) -> RawPlace {
    raw('M', marker, part, 0)
}

// A form of two parts, by its letter.
pub(crate) fn joined(letter: char, part: usize, other_part: usize) -> RawPlace {
    raw(letter, 0, part, other_part)
}

// A node with one arrow.
pub(crate) fn edge(term: Term, part: usize) -> RawPlace {
    RawPlace {
        term,
        ..raw('E', 0, part, 0)
    }
}

// A choice between two parts, by two terms.
pub(crate) fn choice(term: Term, other_term: Term, part: usize, other_part: usize) -> RawPlace {
    RawPlace {
        term,
        other_term,
        ..raw('I', 0, part, other_part)
    }
}

// The refusal of a list of places, if any.
pub(crate) fn told(places: &[RawPlace], constants: usize) -> Option<Refusal> {
    let mut expression = Expression::new();
    admit::admit(places, constants, &mut expression).err()
}
