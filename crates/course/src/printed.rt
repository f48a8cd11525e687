// How the entries of a course, and the refusals of a source and of a run, are printed.
ghost use Rattle.std.specs.Prelude.{Some as Prints};
ghost use Rattle.course.specs.Printed.{origin_text, outcome_text, node_text, arrow_text, frame_text, comparison_text, sizes_text, full_text, fault_text};

use crate::course::{Arrow, Comparison, Frame, Full, Node, Origin, Outcome, Sizes};
use crate::source::SourceFault;
use std::error::Error;
use std::fmt;

// `a0` for a source arrow, `c0` for a constant, `-` for none.
impl fmt::Display for Origin {
    ghost output = { λ origin. Prints (origin_text origin) };

    fn fmt<W: fmt::Write>(&self, f: &mut fmt::Formatter<W>) -> fmt::Result {
        match self {
            Origin::Blank => write!(f, "-"),
            Origin::Source(arrow) => write!(f, "a{arrow}"),
            Origin::Constant(constant) => write!(f, "c{constant}"),
        }
    }
}

// `yes` where the labels are the same, `no` where they are not.
impl fmt::Display for Outcome {
    ghost output = { λ outcome. Prints (outcome_text outcome) };

    fn fmt<W: fmt::Write>(&self, f: &mut fmt::Formatter<W>) -> fmt::Result {
        match self {
            Outcome::Same => write!(f, "yes"),
            Outcome::Other => write!(f, "no"),
        }
    }
}

impl fmt::Display for Node {
    ghost output = { λ node. Prints (node_text node) };

    fn fmt<W: fmt::Write>(&self, f: &mut fmt::Formatter<W>) -> fmt::Result {
        write!(
            f,
            "place={} frame={} marker={} stands={}",
            self.place, self.frame, self.marker, self.stands
        )
    }
}

impl fmt::Display for Arrow {
    ghost output = { λ arrow. Prints (arrow_text arrow) };

    fn fmt<W: fmt::Write>(&self, f: &mut fmt::Formatter<W>) -> fmt::Result {
        write!(
            f,
            "tail={} head={} origin={} place={} frame={}",
            self.tail, self.head, self.origin, self.place, self.frame
        )
    }
}

impl fmt::Display for Frame {
    ghost output = { λ frame. Prints (frame_text frame) };

    fn fmt<W: fmt::Write>(&self, f: &mut fmt::Formatter<W>) -> fmt::Result {
        write!(
            f,
            "parent={} place={} arrow={}",
            self.parent, self.place, self.arrow
        )
    }
}

impl fmt::Display for Comparison {
    ghost output = { λ comparison. Prints (comparison_text comparison) };

    fn fmt<W: fmt::Write>(&self, f: &mut fmt::Formatter<W>) -> fmt::Result {
        write!(
            f,
            "place={} frame={} left={} right={} outcome={}",
            self.place, self.frame, self.left, self.right, self.outcome
        )
    }
}

impl fmt::Display for Sizes {
    ghost output = { λ sizes. Prints (sizes_text sizes) };

    fn fmt<W: fmt::Write>(&self, f: &mut fmt::Formatter<W>) -> fmt::Result {
        write!(
            f,
            "nodes={} arrows={} frames={} comparisons={}",
            self.nodes, self.arrows, self.frames, self.comparisons
        )
    }
}

impl fmt::Display for Full {
    ghost output = { λ full. Prints (full_text full) };

    fn fmt<W: fmt::Write>(&self, f: &mut fmt::Formatter<W>) -> fmt::Result {
        write!(
            f,
            "place={} frame={} list={}",
            self.place,
            self.frame,
            self.list.number()
        )
    }
}

// The refusal's number, and the arrow that it names.
impl fmt::Display for SourceFault {
    ghost output = { λ fault. Prints (fault_text fault) };

    fn fmt<W: fmt::Write>(&self, f: &mut fmt::Formatter<W>) -> fmt::Result {
        match self {
            SourceFault::Count => write!(f, "16"),
            SourceFault::End(arrow) => write!(f, "17 arrow={arrow}"),
        }
    }
}

impl Error for Full {}

impl Error for SourceFault {}
