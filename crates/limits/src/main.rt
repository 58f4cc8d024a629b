// Runs a sheet into its limits: the sixty-fifth open element and the event past the millionth.

#![tactic(auto)]

mod nest;

use bakery::{NoValues, no_values};
use nest::{NEST, Nest};
use sheet::{Engines, Refusal, Sheet};
use std::io;

const TOO_MANY: u32 = 1_000_010;

fn print_outcome(rt: &HostRuntime, what: &str, answer: Result<(), Refusal>) -> io::Result<()> {
    match answer {
        Ok(()) => println!(rt; "{what}: accepted"),
        Err(refusal) => println!(rt; "{what}: {refusal}"),
    }
}

// How many starts in a row are accepted, of a hundred.
fn descend(sheet: &mut Sheet<'_, Nest, NoValues>) -> usize {
    (0..100).filter(|_| sheet.start(NEST).is_ok()).count()
}

// How many texts of one byte are accepted.
fn fill(sheet: &mut Sheet<'_, Nest, NoValues>) -> usize {
    (0..TOO_MANY).filter(|_| sheet.text(b"x").is_ok()).count()
}

fn run_deep(rt: &HostRuntime, engines: Engines<Nest, NoValues>) -> anyhow::Result<()> {
    let mut sheet = Sheet::make(engines);
    print_outcome(rt, "begin", sheet.begin(NEST))?;
    println!(rt; "starts accepted: {}", descend(&mut sheet))?;
    print_outcome(rt, "start", sheet.start(NEST))?;
    print_outcome(rt, "text", sheet.text(b"x"))?;
    print_outcome(rt, "end", sheet.end(NEST))?;
    print_outcome(rt, "start", sheet.start(NEST))?;
    Ok(())
}

fn run_long(rt: &HostRuntime, engines: Engines<Nest, NoValues>) -> anyhow::Result<()> {
    let mut sheet = Sheet::make(engines);
    print_outcome(rt, "begin", sheet.begin(NEST))?;
    print_outcome(rt, "start", sheet.start(NEST))?;
    println!(rt; "texts accepted: {}", fill(&mut sheet))?;
    print_outcome(rt, "text", sheet.text(b"x"))?;
    print_outcome(rt, "text of no byte", sheet.text(b""))?;
    print_outcome(rt, "end", sheet.end(NEST))?;
    Ok(())
}

fn main(rt: HostRuntime) -> anyhow::Result<()> {
    let engines = Engines {
        content: &Nest {},
        value: &no_values(),
    };
    run_deep(&rt, engines)?;
    run_long(&rt, engines)
}
