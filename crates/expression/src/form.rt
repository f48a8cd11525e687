// The eleven forms.
use crate::term::Term;

// A place of an expression: its form, with its terms, its marker or variable, and the places of
// its parts. Each form's letter is the first of its name. Zero comes first, so that a place past
// the end of a table reads as one that stands for nothing.
#[derive(Clone, Copy, Debug, Default, PartialEq, Eq, Hash)]
pub enum Form {
    // no node at all
    #[default]
    Zero,
    // a node without arrows
    Node,
    // a node with one arrow, labelled by the term, to the part
    Edge(Term, usize),
    // the two parts joined, marker by marker
    Union(usize, usize),
    // the part under another marker
    Mark(usize, usize),
    // a node that is left open under a marker
    Out(usize),
    // the two parts side by side
    Disjoint(usize, usize),
    // the first part, its open nodes tied to the second part's markers
    Append(usize, usize),
    // a graph variable
    Graph(usize),
    // the first part where the two terms have the same label, and else the second
    If(Term, Term, usize, usize),
    // structural recursion: the body, once for each arrow of the argument
    Recursion(usize, usize),
}
