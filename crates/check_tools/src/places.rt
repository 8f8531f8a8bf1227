// Shows what two lent slices of 64-bit places hold after a call: lower and upper bounds at their front, how many places
// behind them kept their number, and how many hold the same as those of cleared slices.
ghost use Rattle.std.specs.Prelude.{◌≤◌, length};

use crate::numbers::{Counted, refusal_number};
use rules::Refusal;
use std::io;

// What each place holds before a call: the largest number, which is no bound.
pub const UNTOUCHED: u64 = u64::MAX;

// How many places no call touched.
fn untouched(places: &[u64]) -> usize
    ensures { result ≤ length places.now }
{
    places.iter().filter(|place| **place == UNTOUCHED).count()
}

// Shows how many places of both slices were not touched, and how many were, on a line.
fn show_touched(out: &impl Print, lower: &[u64], upper: &[u64]) -> io::Result<()> {
    let kept = untouched(lower) + untouched(upper);
    println!(out; "{kept} {}", lower.len() + upper.len() - kept)
}

// Shows the refusal, 0 for none, and the number of paths on a line; then the two bounds of each path.
pub fn show_path_bounds(
    out: &impl Print,
    answer: Result<u32, Refusal>,
    lower: &[u64],
    upper: &[u64],
) -> io::Result<()> {
    println!(out; "{}", Counted(answer))?;
    for (lower, upper) in lower.iter().zip(upper) {
        println!(out; "{lower} {upper}")?;
    }
    Ok(())
}

// Shows the refusal, 0 for none, on a line; then each class whose bounds are not both 0, with its bounds.
pub fn show_class_bounds(
    out: &impl Print,
    answer: Result<u32, Refusal>,
    lower: &[u64],
    upper: &[u64],
) -> io::Result<()> {
    println!(out; "{}", refusal_number(&answer))?;
    for (class, (lower, upper)) in lower.iter().zip(upper).enumerate() {
        if *lower | *upper != 0 {
            println!(out; "{class} {lower} {upper}")?;
        }
    }
    Ok(())
}

// Shows the bounds that a call put at the front of two slices, as they are shown; then how many places behind them were
// not touched, and how many were, on a line.
pub fn show_bounded<F: FnOnce(Result<u32, Refusal>, &[u64], &[u64]) -> io::Result<()>>(
    out: &impl Print,
    answer: Result<u32, Refusal>,
    lower: &[u64],
    upper: &[u64],
    show: F,
) -> io::Result<()>
    requires { F.IsAlwaysCallable show }
{
    let count = answer.unwrap_or(0) as usize;
    let (lower, lower_behind) = lower.split_at(count.min(lower.len()));
    let (upper, upper_behind) = upper.split_at(count.min(upper.len()));
    show(answer, lower, upper)?;
    show_touched(out, lower_behind, upper_behind)
}

// How many places of a slice hold the same number as those of another.
fn alike(places: &[u64], others: &[u64]) -> usize
    ensures { result ≤ length places.now }
{
    places
        .iter()
        .zip(others)
        .filter(|(place, other)| *place == *other)
        .count()
}

// Shows how many places of both slices hold the same as those of slices that were cleared before the call, and how many
// were not touched, on a line.
pub fn show_overwritten(
    out: &impl Print,
    lower: &[u64],
    upper: &[u64],
    cleared_lower: &[u64],
    cleared_upper: &[u64],
) -> io::Result<()> {
    let same = alike(lower, cleared_lower) + alike(upper, cleared_upper);
    println!(out; "{same} {}", untouched(lower) + untouched(upper))
}
