// Makes the calls that fill lent space, and shows what each answers and what it wrote.
use check_tools::hexadecimal::write_bytes;
use check_tools::listing::filled_list;
use check_tools::places::{UNTOUCHED, show_bounded, show_class_bounds, show_path_bounds};
use check_tools::texts::{show_text, show_written};
use entries::{CLASS_PLACES, LIST_BYTES, entry_bytes};
use planning::{Refusal, Source};
use std::io;
use study::Study;

// The most places that a command lends for lower or for upper bounds.
const MOST_PLACES: usize = 512;

// Makes a call that writes into so many bytes that hold a value, and shows what it answers and writes, each of so many
// bytes.
fn written<C: FnOnce(&mut [u8]) -> Result<u32, Refusal>, S: FnOnce(&[u8]) -> io::Result<()>>(
    out: &impl Print,
    size: usize,
    fill: u8,
    call: C,
    width: u16,
    show: S,
) -> io::Result<()>
    requires call { C.IsAlwaysCallable call }
    requires show { S.IsAlwaysCallable show }
{
    let mut room = filled_list(fill);
    let lent = &mut room[..size.min(LIST_BYTES)];
    let answer = call(lent);
    show_written(out, answer, width, lent, fill, show)
}

// Lists the paths of a study into so many bytes that hold a value, and shows it all, the list as it is shown.
pub fn list<S: FnOnce(&[u8]) -> io::Result<()>>(
    out: &impl Print,
    study: &Study,
    source: Source,
    size: usize,
    fill: u8,
    show: S,
) -> io::Result<()>
    requires { S.IsAlwaysCallable show }
{
    let width = entry_bytes(usize::from(study.components)) as u16;
    written(
        out,
        size,
        fill,
        |lent| planning::list_paths(study, source, lent).map(|count| count.paths),
        width,
        show,
    )
}

// Asks for the word of a refusal in so many bytes that hold a value, and shows it all.
pub fn word(out: &impl Print, number: u8, size: usize, fill: u8) -> io::Result<()> {
    written(
        out,
        size,
        fill,
        |lent| planning::refusal_word(number, lent),
        1,
        |word| show_text(out, word),
    )
}

// Writes a study out into so many bytes that hold a value, and shows it all.
pub fn write(out: &impl Print, study: &Study, size: usize, fill: u8) -> io::Result<()> {
    written(
        out,
        size,
        fill,
        |lent| planning::write(study, lent),
        1,
        |bytes| write_bytes(out, bytes),
    )
}

// Makes a call for bounds in two slices of so many places that no call has touched, and shows it all, the bounds as
// they are shown.
fn bounded<
    C: FnOnce(&mut [u64], &mut [u64]) -> Result<u32, Refusal>,
    S: FnOnce(Result<u32, Refusal>, &[u64], &[u64]) -> io::Result<()>,
>(out: &impl Print, lower_count: usize, upper_count: usize, call: C, show: S) -> io::Result<()>
    requires call { C.IsAlwaysCallable call }
    requires show { S.IsAlwaysCallable show }
{
    let mut lower_places = [UNTOUCHED; MOST_PLACES];
    let mut upper_places = [UNTOUCHED; MOST_PLACES];
    let lower = &mut lower_places[..lower_count.min(MOST_PLACES)];
    let upper = &mut upper_places[..upper_count.min(MOST_PLACES)];
    let answer = call(lower, upper);
    show_bounded(out, answer, lower, upper, show)
}

// Asks for the bounds of the paths in slices of so many places, and shows it all.
pub fn bound_paths(
    out: &impl Print,
    study: &Study,
    source: Source,
    lower_count: usize,
    upper_count: usize,
) -> io::Result<()> {
    bounded(
        out,
        lower_count,
        upper_count,
        |lower, upper| planning::path_bounds(study, source, lower, upper),
        |answer, lower, upper| show_path_bounds(out, answer, lower, upper),
    )
}

// Asks for the bounds of the classes in slices of so many places, and shows it all.
pub fn bound_classes(
    out: &impl Print,
    study: &Study,
    source: Source,
    lower_count: usize,
    upper_count: usize,
) -> io::Result<()> {
    bounded(
        out,
        lower_count,
        upper_count,
        |lower, upper| {
            planning::class_bounds(study, source, lower, upper).map(|()| CLASS_PLACES as u32)
        },
        |answer, lower, upper| show_class_bounds(out, answer, lower, upper),
    )
}
