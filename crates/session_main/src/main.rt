// The session program: it reads lines from standard input and answers them on standard output. `session::feed` answers them; here are
// the tables, the buffers and the loop.
#![tactic(auto)]

mod failure;
mod progress;
mod system;

ghost use Rattle.session.specs.Standing.{reserved_of};
ghost use Rattle.session_main.specs.Program.{ProgramRan};

use progress::{BUFFER, OUTPUT, Progress};
use spec::bounds::{MOST_CLIENTS, MOST_RECORDS};
use spec::types::Request;
use std::io::{Stdin, Stdout};
use table::clients::CLIENT_WIDTH;

// "The session program reserves 2,048 waiting records once": the tables, and as many start slots.
#[derive(Drop)]
struct Memory {
    waiting: [Request; MOST_RECORDS],
    clients: [u32; CLIENT_WIDTH * MOST_CLIENTS],
    starts: [u64; MOST_RECORDS],
}

// Feeds the session part by part, until the input ends or a read or a write fails, and hands back where that was. Nothing says that an
// input ends, and a loop must: its turns are counted.
fn serve(
    input: Stdin,
    output: Stdout,
    memory: &mut Memory,
    buffer: &mut [u8; BUFFER],
    out: &mut [u8; OUTPUT],
) -> Progress
    ensures { ProgramRan (reserved_of memory.old.waiting memory.old.clients)
        (reserved_of memory.new.waiting memory.new.clients) result }
{
    let mut progress = Progress::start();
    for _turn in 0..u64::MAX {
        let read = progress.read_on(input, buffer);
        let fed = session::feed(
            read.session,
            &buffer[..read.have],
            &mut memory.waiting,
            &mut memory.clients,
            &mut memory.starts,
            out,
        );
        progress = read.go_on(output, fed, buffer, out);
        if progress.is_over() {
            break;
        }
    }
    progress
}

fn main(rt: HostRuntime) {
    let mut memory = Memory {
        waiting: [Request::default(); MOST_RECORDS],
        clients: [0; CLIENT_WIDTH * MOST_CLIENTS],
        starts: [0; MOST_RECORDS],
    };
    let mut buffer = [0; BUFFER];
    let mut out = [0; OUTPUT];
    let progress = serve(rt.stdin(), rt.stdout(), &mut memory, &mut buffer, &mut out);
    let _said = progress.say_why(rt.stderr());
}
