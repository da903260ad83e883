// The program: plays a paper from a file, from standard input, or the built-in sample, and prints what it did.
#![tactic(auto)]

use anyhow::anyhow;
use papers::statements::Failure;
use player::play::play;
use std::io::Read;
use std::{env, fs};

// Played where no paper is named.
const SAMPLE: &str = "# Four copies of a record: how often each was found, and who may see it.
kind pair count clearance
# Is it cleared for confidential readers?
map right then cleared 3
items 2,4 1,2
items 3,3 1000000,1
";

const USAGE: &str = "usage: solbuter [FILE | -]
  FILE  plays the paper in this file
  -     plays the paper on standard input
without a word it plays a built-in sample; docs/PAPERS.md describes papers";

// The bytes of standard input.
fn read_input(rt: &HostRuntime) -> anyhow::Result<Vec<u8>> {
    let mut bytes = Vec::new(rt.alloc());
    let mut input = rt.stdin();
    input.read_to_end(&mut bytes)?;
    Ok(bytes)
}

// Plays one paper and prints what came out. A mistake is an error that begins with the paper's name.
fn show(rt: &HostRuntime, name: &str, text: &[u8]) -> anyhow::Result<()> {
    match play(rt.alloc(), text) {
        Ok(told) => {
            rt.print(told)?;
            Ok(())
        }
        Err(Failure::Mistake(mistake)) => {
            eprintln!(rt; "{name}: {mistake}")?;
            Err(anyhow!("the paper has a mistake"))
        }
        // a text of its own, since to write out the failure would take memory
        Err(Failure::NoMemory) => Err(anyhow!("memory is short")),
    }
}

fn run(rt: &HostRuntime) -> anyhow::Result<()> {
    let mut words = env::args(rt)?;
    let _ = words.next();
    let Some(word) = words.next() else {
        println!(rt; "the built-in sample:\n\n{SAMPLE}\nplayed:\n")?;
        return show(rt, "sample", SAMPLE.as_bytes());
    };
    let word = word.as_str();
    if words.next().is_some() || word == "-h" || word == "--help" {
        rt.eprintln(USAGE)?;
        return Err(anyhow!("expected one word at most: a file, or -"));
    }
    if word == "-" {
        return show(rt, "standard input", &read_input(rt)?);
    }
    match fs::read(rt, word) {
        Ok(text) => show(rt, word, &text),
        Err(e) => {
            eprintln!(rt; "solbuter: {word} cannot be read")?;
            Err(e.into())
        }
    }
}

fn main(rt: HostRuntime) -> anyhow::Result<()> {
    run(&rt)
}
