// The commands of the script. Each is a letter and bytes, calls the library, and writes one line of numbers, or more
// for a list.
//
//     o BYTES                     opens a study: the refusal, 0 for none; it is the current study from then on, and
//                                 where it is refused one of zeros is
//     f BYTES                     opens each strict front part of the bytes, the shortest first: the refusals
//     p ITEM P1 P2 P3             edits the probabilities of a component: the refusal; what the call returns is then
//                                 current
//     c ITEM N                    edits the customers of a load, likewise
//     m ITEM N                    edits the minutes of a load, likewise
//     a FIELD ITEM PLACE VALUE    alters a field of a copy of the current study (see `check_tools::alter`), and edits
//                                 the copy so that nothing changes: the refusal
//     s KIND ITEM                 shows a record of the current study (see `check_tools::show`)
//     l SIZE FILL                 lists the paths of the current study into so many bytes, at most 53,248, that all
//                                 hold FILL. One line: the refusal, 0 for none, and the number of paths. A line for
//                                 each path: a digit for each component or `-` for blank, and the class. One line: how
//                                 many of the bytes behind the list hold FILL, and how many do not
//     t SIZE FILL                 the same, but in place of the paths one line with the sum of each byte of an entry
//                                 over all entries
//     u FIELD ITEM PLACE VALUE    alters a field of a copy as `a` does, and lists its paths as `l` does into 64 bytes
//                                 that hold 170
//     b LOWER UPPER               asks for the bounds of the current study's paths in slices of so many places, at most
//                                 512 each, that all hold 18,446,744,073,709,551,615. One line: the refusal, 0 for
//                                 none, and the number of paths. A line for each path: its lower and its upper bound.
//                                 One line: how many places of both slices behind the bounds, or of all places if
//                                 refused, hold what they held, and how many do not
//     k LOWER UPPER               the same for the classes. One line: the refusal. A line for each class whose bounds
//                                 are not both 0: the class and its bounds. One line: how many places from 256 on, or
//                                 of all if refused, hold what they held, and how many do not
//     v ITEM                      the bounds of a load of the current study: the refusal, 0 for none, the lower and the
//                                 upper bound
//     i                           the figures of the current study. One line: the refusal, 0 for none. Unless refused,
//                                 a line each for SAIFI, SAIDI, CAIDI and MAIFI: the lower and the upper bound, and an
//                                 empty line where CAIDI is not stated
//     n CLASS                     the number of loads lost in a class
//     e FIT HOURS LEAST MOST      the chances at a rate and hours. One line: the refusal, 0 for none, and unless
//                                 refused behind it the bounds for surviving and for failure. Unless refused, one line:
//                                 1 where the lower bound for surviving is at most LEAST, else 0, and 1 where the upper
//                                 one is at least MOST, else 0
//     w NUMBER SIZE FILL          asks for the word of a refusal in so many bytes that all hold FILL. One line: the
//                                 refusal, 0 for none, and the number of bytes. One line: the word. One line: how many
//                                 of the bytes behind the word hold FILL, and how many do not
//     x SIZE FILL                 writes the current study out into so many bytes, at most 53,248, that all hold FILL.
//                                 One line: the refusal, 0 for none, and the number of bytes. Unless refused, one line:
//                                 the bytes. One line: how many of the bytes behind them hold FILL, and how many do not
//     y FIELD ITEM PLACE VALUE    alters a field of a copy as `a` does, and writes it out as `x` does into 64 bytes
//                                 that hold 170
//
//     L SIZE FILL TREE            the same as `l`, by a drawn tree in place of the study's gates
//     U FIELD ITEM PLACE VALUE TREE    the same as `u`
//     B LOWER UPPER TREE          the same as `b`
//     K LOWER UPPER TREE          the same as `k`
//     V ITEM TREE                 the same as `v`
//     I TREE                      the same as `i`
//
// Behind the refusal of `o`, `p`, `c`, `m` and `a` stands on the same line what the bounds of the classes of the study
// that the call left leave in two slices of 300 places that all hold 18,446,744,073,709,551,615: how many places then
// hold the same as those of slices that were cleared before, and how many still hold that number.
//
// P1, P2, P3, N, VALUE, FIT, HOURS, LEAST and MOST have four bytes, lowest byte first, SIZE, LOWER and UPPER have two,
// a TREE all that are left, and the others one. A byte that is missing counts as 0. Any other letter does nothing.
use crate::filled::{bound_classes, bound_paths, list, word, write};
use crate::overwritten::overwrite;
use crate::told::{bound_load, figures, survival};
use check_tools::alter::altered;
use check_tools::arguments::Arguments;
use check_tools::listing::{show_entries, show_sums};
use check_tools::numbers::{refusal_number, separator};
use check_tools::show::show;
use planning::{Refusal, Source};
use std::io;
use study::{Study, zero_study};

// What a copy with one field altered is listed or written into: so many bytes, which hold this.
const ALTERED_SIZE: usize = 64;

const ALTERED_FILL: u8 = 170;

// Shows the refusal of a call, 0 for none, and what becomes of full slices on a line.
fn show_answered(out: &impl Print, answer: Result<(), Refusal>, study: &Study) -> io::Result<()> {
    print!(out; "{} ", refusal_number(&answer))?;
    overwrite(out, study)
}

// Opens a study, which is current then; one of zeros where it is refused.
fn open(out: &impl Print, bytes: &[u8], study: &mut Study) -> io::Result<()> {
    let opened = planning::open(bytes);
    *study = opened.unwrap_or(zero_study());
    show_answered(out, opened.map(|_| ()), study)
}

// Opens each strict front part, and shows the refusals on a line.
fn open_front_parts(out: &impl Print, bytes: &[u8]) -> io::Result<()> {
    for size in 0..bytes.len() {
        let opened = planning::open(&bytes[..size]);
        let behind = separator(size + 1 == bytes.len());
        print!(out; "{}{behind}", refusal_number(&opened))?;
    }
    Ok(())
}

// Edits probabilities, customers or minutes.
fn edit(letter: u8, mut arguments: Arguments, study: &mut Study) -> Result<(), Refusal> {
    let item = usize::from(arguments.byte());
    let n = arguments.word();
    match letter {
        b'c' => planning::set_customers(study, item, n),
        b'm' => planning::set_minutes(study, item, n),
        _ => planning::set_probabilities(study, item, n, arguments.word(), arguments.word()),
    }
}

// The study with one field altered.
fn altered_copy(arguments: &mut Arguments, study: &Study) -> Study {
    altered(
        arguments.byte(),
        usize::from(arguments.byte()),
        usize::from(arguments.byte()),
        arguments.word(),
        study,
    )
}

// Alters a copy of the study, and edits the copy so that nothing changes.
fn edit_altered(out: &impl Print, mut arguments: Arguments, study: &Study) -> io::Result<()> {
    let mut copy = altered_copy(&mut arguments, study);
    let minutes = copy.load[0].minutes;
    let answer = planning::set_minutes(&mut copy, 0, minutes);
    show_answered(out, answer, &copy)
}

// Where a command has the classes from: by a capital letter from the tree that the rest of its bytes draws.
fn source_of(letter: u8, arguments: Arguments) -> Source {
    if letter.is_ascii_uppercase() {
        Source::Tree(arguments.rest)
    } else {
        Source::Gates
    }
}

// Lists the paths of the study into a buffer of the size that the command asks for.
fn list_sized(
    out: &impl Print,
    letter: u8,
    mut arguments: Arguments,
    study: &Study,
) -> io::Result<()> {
    let size = usize::from(arguments.short());
    let fill = arguments.byte();
    let source = source_of(letter, arguments);
    let components = study.components;
    list(out, study, source, size, fill, |paths| match letter {
        b't' => show_sums(out, paths, components),
        _ => show_entries(out, paths, components),
    })
}

// Lists the paths of a copy of the study with one field altered.
fn list_altered(
    out: &impl Print,
    letter: u8,
    mut arguments: Arguments,
    study: &Study,
) -> io::Result<()> {
    let copy = altered_copy(&mut arguments, study);
    let source = source_of(letter, arguments);
    let components = copy.components;
    list(out, &copy, source, ALTERED_SIZE, ALTERED_FILL, |paths| {
        show_entries(out, paths, components)
    })
}

// Asks for bounds in slices of the sizes that the command asks for.
fn bound_sized(
    out: &impl Print,
    letter: u8,
    mut arguments: Arguments,
    study: &Study,
) -> io::Result<()> {
    let lower_count = usize::from(arguments.short());
    let upper_count = usize::from(arguments.short());
    let source = source_of(letter, arguments);
    match letter {
        b'b' | b'B' => bound_paths(out, study, source, lower_count, upper_count),
        _ => bound_classes(out, study, source, lower_count, upper_count),
    }
}

// Asks for the bounds of the load that the command names.
fn bound_named(
    out: &impl Print,
    letter: u8,
    mut arguments: Arguments,
    study: &Study,
) -> io::Result<()> {
    let load = usize::from(arguments.byte());
    bound_load(out, study, source_of(letter, arguments), load)
}

// Asks for the word of a refusal in a buffer of the size that the command asks for.
fn word_sized(out: &impl Print, mut arguments: Arguments) -> io::Result<()> {
    word(
        out,
        arguments.byte(),
        usize::from(arguments.short()),
        arguments.byte(),
    )
}

// Writes the study out into a buffer of the size that the command asks for.
fn write_sized(out: &impl Print, mut arguments: Arguments, study: &Study) -> io::Result<()> {
    write(out, study, usize::from(arguments.short()), arguments.byte())
}

// Writes a copy of the study with one field altered out.
fn write_altered(out: &impl Print, mut arguments: Arguments, study: &Study) -> io::Result<()> {
    let copy = altered_copy(&mut arguments, study);
    write(out, &copy, ALTERED_SIZE, ALTERED_FILL)
}

// Shows the record that the command names.
fn show_named(out: &impl Print, mut arguments: Arguments, study: &Study) -> io::Result<()> {
    show(out, arguments.byte(), usize::from(arguments.byte()), study)
}

// Asks for the chances at the rate and hours that the command names.
fn survival_named(out: &impl Print, mut arguments: Arguments) -> io::Result<()> {
    survival(
        out,
        arguments.word(),
        arguments.word(),
        arguments.word(),
        arguments.word(),
    )
}

// Obeys a command that leaves the current study as it is.
fn look(out: &impl Print, letter: u8, arguments: Arguments, study: &Study) -> io::Result<()> {
    match letter {
        b'f' => open_front_parts(out, arguments.rest),
        b'a' => edit_altered(out, arguments, study),
        b's' => show_named(out, arguments, study),
        b'l' | b'L' | b't' => list_sized(out, letter, arguments, study),
        b'u' | b'U' => list_altered(out, letter, arguments, study),
        b'b' | b'B' | b'k' | b'K' => bound_sized(out, letter, arguments, study),
        b'v' | b'V' => bound_named(out, letter, arguments, study),
        b'i' | b'I' => figures(out, study, source_of(letter, arguments)),
        b'n' => println!(out; "{}", planning::loads_lost(arguments.class())),
        b'e' => survival_named(out, arguments),
        b'w' => word_sized(out, arguments),
        b'x' => write_sized(out, arguments, study),
        b'y' => write_altered(out, arguments, study),
        _ => Ok(()),
    }
}

// Obeys a command on the study that is current, and becomes another by some.
pub fn obey(out: &impl Print, letter: u8, bytes: &[u8], study: &mut Study) -> io::Result<()> {
    match letter {
        b'o' => open(out, bytes, study),
        b'p' | b'c' | b'm' => {
            let answer = edit(letter, Arguments { rest: bytes }, study);
            show_answered(out, answer, study)
        }
        _ => look(out, letter, Arguments { rest: bytes }, study),
    }
}
