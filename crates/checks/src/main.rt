// Runs the script on standard input against the library and writes what each call answers. The script's own lines say
// which numbers are right; `stdout` holds them, worked out by hand or, for lists and bounds, by a second program from
// all joint states, and for chances with several factors, by multiplying those of the table in turn.
#![tactic(auto)]

mod commands;
mod filled;
mod output;
mod overwritten;
mod script;
mod told;

ghost use Rattle.std.specs.Prelude.{◌≡◌, length};

use output::Output;

// Room for the whole script.
const SCRIPT_BYTES: usize = 131072;

fn script_room() -> [u8; SCRIPT_BYTES]
    ensures { 131072 ≡ length result }
{
    [0; SCRIPT_BYTES]
}

// Runs the script, as far as it can be read and there is room for it.
fn main() {
    let mut room = script_room();
    let size = io::read_full(0, &mut room);
    let _ = script::run(&Output, &room[..size]);
}
