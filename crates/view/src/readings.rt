// What a view tells.
ghost use Rattle.std.specs.Prelude.{◌≡◌, length, MatchOption};
ghost use Rattle.std.specs.List.{slice_get};
ghost use Rattle.course.specs.Opening.{no_course};
ghost use Rattle.course.specs.View.{course_of, Counts};
ghost use Rattle.view.specs.View.{seen, course_in, rows_in, node_in};

use crate::view::View;
use course::course::{Arrow, Comparison, Frame, Node, Sizes};
use course::workspace::Workspace;
use rows::row::Row;

impl View {
    // The workspace of the course that is shown; none where nothing is.
    fn course(&self) -> Option<&Workspace>
        ensures { MatchOption result (course_in (seen self.now) ≡ no_course) (λ w. course_in (seen self.now) ≡ course_of w.now) }
    {
        self.shown.map(|_| &self.workspace)
    }

    // The node that is shown first, the whole's node for marker 0.
    pub fn first_node(&self) -> Option<usize>
        ensures { result ≡ node_in (seen self.now) }
    {
        // There is none where nothing is shown.
        self.shown
    }

    // How many entries each list of the course has.
    pub fn sizes(&self) -> Sizes
        ensures { Counts (course_in (seen self.now)) result }
    {
        self.course().map_or(Sizes::default(), Workspace::sizes)
    }

    // The nodes of the course.
    pub fn nodes(&self) -> &[Node]
        ensures { result.now ≡ (course_in (seen self.now)).nodes }
    {
        self.course().map_or(&[], Workspace::nodes)
    }

    // The arrows of the course.
    pub fn arrows(&self) -> &[Arrow]
        ensures { result.now ≡ (course_in (seen self.now)).arrows }
    {
        self.course().map_or(&[], Workspace::arrows)
    }

    // The frames of the course.
    pub fn frames(&self) -> &[Frame]
        ensures { result.now ≡ (course_in (seen self.now)).frames }
    {
        self.course().map_or(&[], Workspace::frames)
    }

    // The comparisons of the course.
    pub fn comparisons(&self) -> &[Comparison]
        ensures { result.now ≡ (course_in (seen self.now)).comparisons }
    {
        self.course().map_or(&[], Workspace::comparisons)
    }

    // The rows.
    pub fn rows(&self) -> &[Row]
        ensures { result.now ≡ rows_in (seen self.now) }
    {
        self.shown.map_or(&[], |_| self.rows.as_slice())
    }

    // A node of the course by its number.
    pub fn node(&self, number: usize) -> Option<Node>
        ensures { result ≡ slice_get (course_in (seen self.now)).nodes number }
    {
        self.nodes().get(number).copied()
    }

    // An arrow of the course by its number.
    pub fn arrow(&self, number: usize) -> Option<Arrow>
        ensures { result ≡ slice_get (course_in (seen self.now)).arrows number }
    {
        self.arrows().get(number).copied()
    }

    // A frame of the course by its number.
    pub fn frame(&self, number: usize) -> Option<Frame>
        ensures { result ≡ slice_get (course_in (seen self.now)).frames number }
    {
        self.frames().get(number).copied()
    }

    // A comparison of the course by its number.
    pub fn comparison(&self, number: usize) -> Option<Comparison>
        ensures { result ≡ slice_get (course_in (seen self.now)).comparisons number }
    {
        self.comparisons().get(number).copied()
    }

    // How many rows there are.
    pub fn row_count(&self) -> usize
        ensures { result ≡ length (rows_in (seen self.now)) }
    {
        self.rows().len()
    }

    // A row by its number.
    pub fn row(&self, number: usize) -> Option<Row>
        ensures { result ≡ slice_get (rows_in (seen self.now)) number }
    {
        self.rows().get(number).copied()
    }
}
