// Places as a caller hands them in.
ghost use Rattle.std.specs.Prelude.{◌≡◌};
ghost use Rattle.expression.specs.Raw.{read};

use crate::form::Form;
use crate::term::Term;

// A place that nobody has looked at yet: anything at all may stand in it. A form uses the fields
// that it has, and the others are free.
#[derive(Clone, Copy, Debug, PartialEq, Eq, Hash)]
pub struct RawPlace {
    // the form's letter
    pub letter: char,
    // the term of an Edge, or the first of an If
    pub term: Term,
    // the second term of an If
    pub other_term: Term,
    // the marker of a Mark or an Out, or the variable of a Graph
    pub number: usize,
    // the part, or the first of two
    pub part: usize,
    // the second part
    pub other_part: usize,
}

impl RawPlace {
    // The form that the letter names, with the fields that it has.
    pub fn form(&self) -> Option<Form>
        ensures { result ≡ read self.now }
    {
        match self.letter {
            'A' => Some(Form::Append(self.part, self.other_part)),
            'D' => Some(Form::Disjoint(self.part, self.other_part)),
            'E' => Some(Form::Edge(self.term, self.part)),
            'G' => Some(Form::Graph(self.number)),
            'I' => Some(Form::If(self.term, self.other_term, self.part, self.other_part)),
            'M' => Some(Form::Mark(self.number, self.part)),
            'N' => Some(Form::Node),
            'O' => Some(Form::Out(self.number)),
            'R' => Some(Form::Recursion(self.part, self.other_part)),
            'U' => Some(Form::Union(self.part, self.other_part)),
            'Z' => Some(Form::Zero),
            _ => None,
        }
    }
}
