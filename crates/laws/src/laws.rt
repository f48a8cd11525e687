// The laws of a forward run. Each function here says one of them.
ghost use Rattle.laws.specs.Cabinets.{WorkedCourses};
ghost use Rattle.laws.specs.Extends.{OnlyAdds};
ghost use Rattle.laws.specs.Labelling.{ClassesStand, RecordedMeanings, SameCourseMeanings};
ghost use Rattle.laws.specs.Bounds.{Bounds};
ghost use Rattle.laws.specs.Reached.{ReachedExact};
ghost use Rattle.laws.specs.Recorded.{Recorded, SameCourse};
ghost use Rattle.laws.specs.Recursion.{MembersExact, NodesExact, ArrowsExact, RecursionRule, HubNumbers, HubsExact, HubsStand};

use kinds::label::Label;

// What a recursion's set S holds is exactly what arrows reach.
fn reached_law()
    ensures { ReachedExact }
{}

// A run only adds entries.
fn entries_law()
    ensures { OnlyAdds }
{}

// Every recorded comparison has the outcome that the run's own comparing gives.
fn recorded_law()
    ensures { Recorded }
{}

// A second way to compare takes the same course if and only if it agrees with every recorded comparison.
fn same_course_law()
    ensures { SameCourse }
{}

// A recursion is the run of its rule over the nodes reached, the arrows that leave them and the hubs.
fn recursion_law()
    ensures members { MembersExact }
    ensures nodes { NodesExact }
    ensures arrows { ArrowsExact }
    ensures rule { RecursionRule }
    ensures numbers { HubNumbers }
    ensures hubs { HubsExact }
    ensures stand { HubsStand }
{}

// Every course that a finished run leaves is within bounds.
fn bounds_law()
    ensures { Bounds }
{}

// Class numbers stand for labels, for every kind of label.
fn labels_law<L: Label>()
    ensures classes { ClassesStand L.alike L.meaning }
    ensures recorded { RecordedMeanings L.alike L.meaning }
    ensures same_course { SameCourseMeanings L.alike L.meaning }
{}

// The worked cases of two small cabinets.
fn worked_cases()
    ensures courses { WorkedCourses }
{}
