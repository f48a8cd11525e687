// What a workspace tells of the course that it holds.
ghost use Rattle.std.specs.Prelude.{◌≡◌, length};
ghost use Rattle.std.specs.List.{slice_get};
ghost use Rattle.course.specs.View.{course_of, Counts};

use crate::course::{Arrow, Comparison, Frame, Node, Sizes};
use crate::workspace::Workspace;

impl Workspace {
    // How many entries each list has.
    pub fn sizes(&self) -> Sizes
        ensures { Counts (course_of self.now) result }
    {
        Sizes {
            nodes: self.nodes.len(),
            arrows: self.arrows.len(),
            frames: self.frames.len(),
            comparisons: self.comparisons.len(),
        }
    }

    // The nodes.
    pub fn nodes(&self) -> &[Node]
        ensures { result.now ≡ (course_of self.now).nodes }
    {
        self.nodes.as_slice()
    }

    // The arrows.
    pub fn arrows(&self) -> &[Arrow]
        ensures { result.now ≡ (course_of self.now).arrows }
    {
        self.arrows.as_slice()
    }

    // The frames.
    pub fn frames(&self) -> &[Frame]
        ensures { result.now ≡ (course_of self.now).frames }
    {
        self.frames.as_slice()
    }

    // The comparisons.
    pub fn comparisons(&self) -> &[Comparison]
        ensures { result.now ≡ (course_of self.now).comparisons }
    {
        self.comparisons.as_slice()
    }

    // A node by its number.
    pub fn node(&self, number: usize) -> Option<Node>
        ensures { result ≡ slice_get (course_of self.now).nodes number }
    {
        self.nodes.get(number).copied()
    }

    // An arrow by its number.
    pub fn arrow(&self, number: usize) -> Option<Arrow>
        ensures { result ≡ slice_get (course_of self.now).arrows number }
    {
        self.arrows.get(number).copied()
    }

    // A frame by its number.
    pub fn frame(&self, number: usize) -> Option<Frame>
        ensures { result ≡ slice_get (course_of self.now).frames number }
    {
        self.frames.get(number).copied()
    }

    // A comparison by its number.
    pub fn comparison(&self, number: usize) -> Option<Comparison>
        ensures { result ≡ slice_get (course_of self.now).comparisons number }
    {
        self.comparisons.get(number).copied()
    }
}
