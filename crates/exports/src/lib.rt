// The calls of `planning` for C: what a program in another language links. An opened study is held by its caller as an
// image in a slice of bytes. Each call answers a count or 0, and where it is refused the number of the refusal below 0;
// nothing lent is touched then. Each only passes on to the call of its theme, whose contract it has: by the study's
// gates, or by the tree that is lent.
#![tactic(auto)]

mod losses;
mod studies;
mod surviving;
mod texts;
mod tree_paths;
