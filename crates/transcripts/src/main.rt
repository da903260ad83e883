// Plays each paper of its standard input, with a line of dashes after each, and prints what came out: what was played, or
// the mistake. The gate compares this with what it should be.
#![tactic(auto)]

use player::play::play;
use std::io::Read;

// One paper, and what came out.
fn show(rt: &HostRuntime, text: &str) -> anyhow::Result<()> {
    rt.print(text)?;
    match play(rt.alloc(), text.as_bytes()) {
        Ok(told) => println!(rt; "=> played\n{told}")?,
        Err(failure) => println!(rt; "=> {failure}\n")?,
    }
    Ok(())
}

fn run(rt: &HostRuntime) -> anyhow::Result<()> {
    let mut text = String::new(rt.alloc());
    let mut input = rt.stdin();
    input.read_to_string(&mut text)?;
    for paper in text.as_str().split("----\n") {
        show(rt, paper)?;
    }
    Ok(())
}

fn main(rt: HostRuntime) -> anyhow::Result<()> {
    run(&rt)
}
