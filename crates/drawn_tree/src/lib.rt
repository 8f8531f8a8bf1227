// Drawn event trees: their bytes judged from left to right, and the class table that they draw. Studies are not known here. Not for callers from
// outside: those call `planning`.
//
// What a tree means is said of a tree as data: a joint state goes down from the root, at each node with the subtree of the state that it has for
// the component asked, and has the class of the leaf that it comes to. The code makes no such data. It goes over the bytes once, depth first, with
// the marks of its branch in hand, and at a leaf it writes the class at every joint state that fits the marks, as it would fit a path. Why the table
// is then the tree's: where two branches part, their marks differ in the component asked there, so that no joint state fits both, and the one that
// has a state for it fits the branch of that state. Below a node, once the subtrees of the states below s are read, the table holds the tree's classes at the
// joint states of the branch that have such a state; behind the last, at all of the branch. At the root nothing is asked, and all joint states fit.
#![tactic(auto)]

mod branch;
mod classes;
mod tree;

pub use classes::draw_classes;
