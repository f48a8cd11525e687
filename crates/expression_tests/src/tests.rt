// Each bound of admission, on both of its sides.
use crate::places::*;
use expression::admit;
use expression::expression::Expression;
use expression::raw::RawPlace;
use expression::refusal::Refusal;
use expression::term::Term;
use std::test::Fail;

// Puts each place but the first under a mark.
fn chain(places: &mut [RawPlace]) {
    for (part, place) in places.iter_mut().skip(1).enumerate() {
        *place = mark(0, part);
    }
}

// A place in the bodies of recursions, one around the other.
fn nested(inner: RawPlace) -> [RawPlace; 11] {
    let mut places = [graph(0); 11];
    places[0] = inner;
    for depth in 1..6 {
        places[2 * depth] = joined('R', 2 * depth - 2, 2 * depth - 1);
    }
    places
}

#[test]
fn sizes(rt: HostRuntime) {
    let mut most = [node(); 64];
    let mut above = [node(); 65];
    chain(&mut most);
    chain(&mut above);
    assert_eq!(rt; told(&most, 32), None);
    assert_eq!(rt; told(&above, 0), Some(Refusal::Size));
    assert_eq!(rt; told(&[], 0), Some(Refusal::Size));
    assert_eq!(rt; told(&[node()], 32), None);
    assert_eq!(rt; told(&[node()], 33), Some(Refusal::Size));
}

#[test]
fn letters_and_parts(rt: HostRuntime) {
    assert_eq!(rt; told(&[raw('n', 0, 0, 0)], 0), Some(Refusal::IllFormed(0)));
    assert_eq!(rt; told(&[raw('B', 0, 0, 0)], 0), Some(Refusal::IllFormed(0)));
    assert_eq!(rt; told(&[node(), mark(0, 1)], 0), Some(Refusal::IllFormed(1)));
    assert_eq!(rt;
        told(&[node(), joined('U', 0, 1)], 0),
        Some(Refusal::IllFormed(1))
    );
    assert_eq!(rt; told(&[node(), mark(0, 0)], 0), None);
}

#[test]
fn uses(rt: HostRuntime) {
    assert_eq!(rt;
        told(&[node(), joined('U', 0, 0)], 0),
        Some(Refusal::NotPartOnce(0))
    );
    assert_eq!(rt; told(&[node(), node()], 0), Some(Refusal::NotPartOnce(0)));
    assert_eq!(rt;
        told(&[node(), mark(0, 0), mark(0, 0)], 0),
        Some(Refusal::NotPartOnce(0))
    );
    assert_eq!(rt; told(&[node(), node(), joined('U', 0, 1)], 0), None);
}

#[test]
fn levels(rt: HostRuntime) {
    let four = nested(graph(4));
    assert_eq!(rt; told(&four[..9], 0), None);
    assert_eq!(rt; told(&four, 0), Some(Refusal::OutOfRange(0)));
    assert_eq!(rt; told(&nested(node()), 0), Some(Refusal::OutOfRange(0)));
    assert_eq!(rt;
        told(&nested(graph(5))[..9], 0),
        Some(Refusal::OutOfRange(0))
    );
    assert_eq!(rt; told(&[graph(0)], 0), None);
    assert_eq!(rt; told(&[graph(1)], 0), Some(Refusal::OutOfRange(0)));
}

// An edge with a term, in the body of a recursion.
fn labelled(term: Term) -> [RawPlace; 4] {
    [node(), edge(term, 0), graph(0), joined('R', 1, 2)]
}

#[test]
fn terms(rt: HostRuntime) {
    assert_eq!(rt; told(&labelled(Term::Variable(1)), 0), None);
    assert_eq!(rt;
        told(&labelled(Term::Variable(0)), 0),
        Some(Refusal::OutOfRange(1))
    );
    assert_eq!(rt;
        told(&labelled(Term::Variable(2)), 0),
        Some(Refusal::OutOfRange(1))
    );
    assert_eq!(rt; told(&labelled(Term::Constant(31)), 32), None);
    assert_eq!(rt;
        told(&labelled(Term::Constant(32)), 32),
        Some(Refusal::OutOfRange(1))
    );
    assert_eq!(rt;
        told(&labelled(Term::Constant(0)), 0),
        Some(Refusal::OutOfRange(1))
    );
}

// A node left open under one marker, tied to a node under another.
fn tied(opened: usize, marked: usize) -> [RawPlace; 4] {
    [out(opened), node(), mark(marked, 1), joined('A', 0, 2)]
}

#[test]
fn markers(rt: HostRuntime) {
    assert_eq!(rt; told(&tied(7, 7), 0), None);
    assert_eq!(rt; told(&tied(8, 7), 0), Some(Refusal::OutOfRange(0)));
    assert_eq!(rt; told(&tied(7, 8), 0), Some(Refusal::OutOfRange(2)));
}

#[test]
fn sets(rt: HostRuntime) {
    assert_eq!(rt;
        told(&[node(), node(), joined('D', 0, 1)], 0),
        Some(Refusal::SetsUnfit(2))
    );
    assert_eq!(rt;
        told(&[node(), raw('Z', 0, 0, 0), joined('D', 0, 1)], 0),
        None
    );
    assert_eq!(rt;
        told(&[node(), raw('Z', 0, 0, 0), joined('U', 0, 1)], 0),
        Some(Refusal::SetsUnfit(2))
    );
    assert_eq!(rt;
        told(&[node(), out(0), joined('R', 0, 1)], 0),
        Some(Refusal::SetsUnfit(2))
    );
    assert_eq!(rt;
        told(&[out(1), graph(0), joined('R', 0, 1)], 0),
        Some(Refusal::SetsUnfit(2))
    );
    assert_eq!(rt; told(&[out(0), graph(0), joined('R', 0, 1)], 0), None);
    assert_eq!(rt;
        told(&[node(), out(1), joined('U', 0, 1)], 0),
        Some(Refusal::SetsUnfit(2))
    );
    assert_eq!(rt; told(&[out(0)], 0), Some(Refusal::SetsUnfit(0)));
}

// A refusal is printed by its number, and by its place if it names one.
#[test]
fn printing(rt: HostRuntime) -> Result<(), Fail> {
    let size = Refusal::Size.to_string(rt.alloc())?;
    assert_eq!(rt; size.as_str(), "11");
    let range = Refusal::OutOfRange(3).to_string(rt.alloc())?;
    assert_eq!(rt; range.as_str(), "14 place=3");
    Ok(())
}

// The number of the check decides before the place.
#[test]
fn order(rt: HostRuntime) {
    let late = [node(), node(), node(), node(), node(), joined('U', 5, 1)];
    assert_eq!(rt; told(&late, 0), Some(Refusal::IllFormed(5)));
    assert_eq!(rt; told(&[node(), graph(9)], 0), Some(Refusal::NotPartOnce(0)));
    let empty = [raw('Z', 0, 0, 0), edge(Term::Constant(0), 0)];
    assert_eq!(rt; told(&empty, 0), Some(Refusal::OutOfRange(1)));
    assert_eq!(rt; told(&empty, 1), Some(Refusal::SetsUnfit(1)));
}

// Cabinet P's expression is read back, and a refusal leaves it as it was.
#[test]
fn readings(rt: HostRuntime) {
    let label = Term::Variable(1);
    let places = [
        out(0),
        edge(label, 0),
        node(),
        choice(label, Term::Constant(0), 2, 1),
        graph(0),
        joined('R', 3, 4),
    ];
    let mut expression = Expression::new();
    assert_eq!(rt; expression.count(), 1);
    assert_eq!(rt; admit::admit(&places, 1, &mut expression), Ok(()));
    assert_eq!(rt;
        admit::admit(&places[..5], 1, &mut expression),
        Err(Refusal::NotPartOnce(3))
    );
    assert_eq!(rt; expression.count(), 6);
    assert_eq!(rt; expression.constants(), 1);
    assert_eq!(rt; expression.level(0), Some(1));
    assert_eq!(rt; expression.level(5), Some(0));
    assert_eq!(rt; expression.level(6), None);
    assert_eq!(rt; expression.out_set(3)[0], true);
    assert_eq!(rt; expression.out_set(5)[0], false);
    assert_eq!(rt; expression.in_set(5)[0], true);
}
