// Expressions as they are written, a name for each.

// Leaves out the arrows with the label of constant 0.
pub const WITHOUT: &str = "O,0 E,v1,0 N I,v1,c0,2,1 G,0 R,3,4";

// The source, with an arrow more to its root.
pub const BESIDE: &str = "G,0 G,0 E,c0,1 U,0,2";

// Copies the source.
pub const COPY: &str = "O,0 E,v1,0 G,0 R,1,2";

// Markers 1 and 2, marked, side by side, joined and tied.
pub const JOINED: &str =
    "O,1 O,2 U,0,1 G,0 M,1,3 N M,2,5 D,4,6 G,0 M,1,8 G,0 E,c0,10 M,2,11 D,9,12 U,7,13 A,2,14";

// Copies every second arrow of a path, by the markers 0 and 3.
pub const ALTERNATE: &str = "O,3 O,0 E,v1,1 M,3,2 D,0,3 G,0 R,4,5 O,3 A,7,6";

// A node for each arrow, by a body with an empty in-set, and one node beside them.
pub const NO_MARKERS: &str = "N Z N A,1,2 G,0 R,3,4 D,0,5";

// Four nodes for each arrow, by a body with an empty in-set, and one node beside them.
pub const FOUR_NODES: &str = "N Z N A,1,2 N A,3,4 N A,5,6 N A,7,8 G,0 R,9,10 D,0,11";

// Seven blank arrows for each arrow; then an out that finds no marker.
pub const SEVEN_ARROWS: &str =
    "G,1 G,1 M,1,1 D,0,2 G,1 M,2,4 D,3,5 G,1 M,3,7 D,6,8 G,1 M,4,10 D,9,11 G,1 M,5,13 D,12,14 G,1 M,6,16 D,15,17 G,0 R,18,19 O,7 A,21,20";

// The same; then an out that finds its marker.
pub const SEVEN_ARROWS_AND_ONE: &str =
    "G,1 G,1 M,1,1 D,0,2 G,1 M,2,4 D,3,5 G,1 M,3,7 D,6,8 G,1 M,4,10 D,9,11 G,1 M,5,13 D,12,14 G,1 M,6,16 D,15,17 G,0 R,18,19 O,0 A,21,20";

// Two frames for each arrow, and one more.
pub const TWO_FRAMES: &str = "N Z G,0 R,1,2 D,0,3 Z G,0 R,5,6 D,4,7 Z N E,c0,10 R,9,11 D,8,12";

// Four comparisons for each arrow.
pub const FOUR_COMPARISONS: &str =
    "Z Z I,v1,v1,0,1 Z I,v1,v1,2,3 Z I,v1,v1,4,5 Z I,v1,v1,6,7 G,0 R,8,9 N D,11,10";

// The same, and one more.
pub const FOUR_COMPARISONS_AND_ONE: &str =
    "Z Z I,v1,v1,0,1 Z I,v1,v1,2,3 Z I,v1,v1,4,5 Z I,v1,v1,6,7 G,0 R,8,9 N D,11,10 Z Z I,c0,c0,13,14 D,12,15";

// The source's rows at its root and at four nodes above it, and a row more at each of these.
pub const FOUR_ABOVE: &str =
    "G,0 E,c0,0 G,0 U,2,1 E,c0,3 G,0 U,5,4 E,c0,6 G,0 U,8,7 E,c0,9 G,0 U,11,10";

// The same with five nodes.
pub const FIVE_ABOVE: &str =
    "G,0 E,c0,0 G,0 U,2,1 E,c0,3 G,0 U,5,4 E,c0,6 G,0 U,8,7 E,c0,9 G,0 U,11,10 E,c0,12 G,0 U,14,13";

// Recursion to level 4, where each body runs for each arrow.
pub const LEVEL_4: &str = "N E,v4,0 E,v3,1 E,v2,2 E,v1,3 G,3 R,4,5 G,2 R,6,7 G,1 R,8,9 G,0 R,10,11";

// A long ring of blank arrows by four markers, and then, four levels deep, ten recursions over the
// ring for each source arrow, each with an empty in-set.
pub const BLANK_RING: &str =
    "O,1 O,2 M,1,1 D,0,2 O,3 M,2,4 D,3,5 O,0 M,3,7 D,6,8 G,0 R,9,10 O,0 A,12,11 E,c0,13 Z G,1 R,15,16 Z G,1 R,18,19 D,17,20 Z G,1 R,22,23 D,21,24 Z G,1 R,26,27 D,25,28 Z G,1 R,30,31 D,29,32 Z G,1 R,34,35 D,33,36 Z G,1 R,38,39 D,37,40 Z G,1 R,42,43 D,41,44 Z G,1 R,46,47 D,45,48 Z G,1 R,50,51 D,49,52 G,0 R,53,54 N E,c0,56 R,55,57 R,58,14 N D,60,59";

// Fourteen recursions over one node for each arrow.
pub const SHORT_RECURSIONS: &str =
    "Z G,1 R,0,1 Z G,1 R,3,4 D,2,5 Z G,1 R,7,8 D,6,9 Z G,1 R,11,12 D,10,13 Z G,1 R,15,16 D,14,17 Z G,1 R,19,20 D,18,21 Z G,1 R,23,24 D,22,25 G,0 R,26,27 Z G,1 R,29,30 Z G,1 R,32,33 D,31,34 Z G,1 R,36,37 D,35,38 Z G,1 R,40,41 D,39,42 Z G,1 R,44,45 D,43,46 Z G,1 R,48,49 D,47,50 Z G,1 R,52,53 D,51,54 G,0 R,55,56 N D,58,28 D,59,57";
