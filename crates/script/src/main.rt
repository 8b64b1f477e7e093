// The script program: standard input is a script, standard output its listing. What is printed is the crate listing's; that all of the input is read,
// and what each piece prints written once and in order, rests on the loop here.
#![tactic(auto)]

ghost use Rattle.std.specs.Prelude.{◌≡◌, ◌+◌, ◌≤◌, ◌<◌, ◌^◌, length};
ghost use Rattle.listing.specs.Stands.{place_of};

use layout::Window;
use listing::{KEPT, Stage, Stand};
use std::io::{Read, Stdin, Stdout, Write};
use std::ops::ControlFlow;

// The most bytes of input that are read at a time: what they print fits the room for output.
const PIECE: usize = 1024;

// The room for what a piece prints.
const ROOM: usize = 65536;

// 2 to the 50th.
const TURNS: u64 = 1125899906842624;

// Writes what waits, after which nothing does; whether it could be written.
fn write_out(mut output: Stdout, stand: &mut Stand, out: &[u8]) -> bool
    requires { stand.old.used ≤ length out.now }
    ensures nothing_waits { stand.new.used ≡ 0 }
    ensures rest { (stand.new.held ≡ stand.old.held) × (stand.new.stage ≡ stand.old.stage) }
{
    let written = output.write_all(&out[..stand.used]).is_ok();
    stand.used = 0;
    written
}

// Reads a piece of the input: how many bytes it put at the start. None at the end, and where the input cannot be read.
fn read_piece(mut input: Stdin, piece: &mut [u8]) -> usize
    ensures { result ≤ length piece.new }
{
    input.read(piece).unwrap_or(0)
}

// Reads a piece of the input, feeds it and writes what it printed. No turn follows at the end of the input, after a broken first line
// and where the output cannot be written.
fn turn(
    input: Stdin,
    output: Stdout,
    stand: &mut Stand,
    line: &mut [u8],
    memory: &mut [u8],
    out: &mut [u8; ROOM],
) -> ControlFlow<()>
    requires line_len { length line.old ≡ 65 }
    requires held_bound { stand.old.held ≤ 65 }
    requires nothing_waits { stand.old.used ≡ 0 }
    requires place_bound { place_of stand.old.stage + 1024 < 2 ^ 64 }
    ensures held_bound_2 { stand.new.held ≤ 65 }
    ensures nothing_waits_2 { stand.new.used ≡ 0 }
    ensures place_bound_2 { place_of stand.new.stage ≤ place_of stand.old.stage + 1024 }
{
    let mut piece = [0u8; PIECE];
    let count = read_piece(input, &mut piece);
    if count == 0 {
        return ControlFlow::Break(());
    }
    stand.feed(&piece[..count], line, memory, out);
    let written = write_out(output, stand, out);
    if !written || matches!(stand.stage, Stage::Over(_)) {
        return ControlFlow::Break(());
    }
    ControlFlow::Continue(())
}

// Turn after turn. A proved loop has to end, and nothing says that the input does: so the turns are counted up to a number that no run reaches.
fn run(
    input: Stdin,
    output: Stdout,
    stand: &mut Stand,
    line: &mut [u8],
    memory: &mut [u8],
    out: &mut [u8; ROOM],
)
    requires line_len { length line.old ≡ 65 }
    requires held_bound { stand.old.held ≤ 65 }
    requires nothing_waits { stand.old.used ≡ 0 }
    requires place_value { place_of stand.old.stage ≡ 0 }
    ensures held_bound_2 { stand.new.held ≤ 65 }
    ensures nothing_waits_2 { stand.new.used ≡ 0 }
    ensures place_bound { place_of stand.new.stage ≤ 2 ^ 60 }
{
    for _turn in 0..TURNS {
        if turn(input, output, stand, line, memory, out).is_break() {
            break;
        }
    }
}

fn main(rt: HostRuntime) {
    let mut memory = [0u8; Window::SIZE];
    let mut line = [0u8; KEPT];
    let mut out = [0u8; ROOM];
    let mut stand = Stand::start(&mut out);
    write_out(rt.stdout(), &mut stand, &out);
    run(
        rt.stdin(),
        rt.stdout(),
        &mut stand,
        &mut line,
        &mut memory,
        &mut out,
    );
    stand.finish(&line, &mut memory, &mut out);
    write_out(rt.stdout(), &mut stand, &out);
}
