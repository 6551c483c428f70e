// parkline: event lines from standard input, an answer line each to standard output.
#![tactic(auto)]

use std::io;

fn main(rt: HostRuntime) -> io::Result<()> {
    console::answer_all(&rt)
}
