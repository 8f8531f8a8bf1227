// What the checks are made of: the bytes of a command, bytes in hexadecimal, altering and showing a study's fields, and
// showing what a call answered and wrote: a list of paths, bounds, a text and the bytes of a study.
#![tactic(auto)]

pub mod alter;
pub mod arguments;
pub mod hexadecimal;
pub mod listing;
pub mod numbers;
pub mod places;
pub mod show;
pub mod texts;
