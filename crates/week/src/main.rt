// Judges one week of a bakery: sends the calls of a clocking hub and of the foreman who mends them to a
// sheet, and prints what each was answered.

#![tactic(auto)]

mod printing;
mod story;

use bakery::{agreement, hours_values, week_length};
use printing::{Next, Said, Told};
use sheet::{Call, Engines, Granted, replay};
use std::io;
use story::{LENGTH, LOCKED, SHIFTS_DONE, expected_after, week_calls};

// What the sheet expects after the first of the calls.
fn print_expected(rt: &HostRuntime, calls: &[Call], sent: usize) -> io::Result<()> {
    print!(rt; "expected after {sent} calls:")?;
    match expected_after(calls, sent) {
        Ok(expected) => println!(rt; "{}", Next(expected)),
        Err(refusal) => println!(rt; " {refusal}"),
    }
}

fn run(rt: &HostRuntime) -> anyhow::Result<()> {
    let engines = Engines {
        content: &agreement(),
        value: &hours_values(),
    };
    let calls = week_calls();
    let mut answers = [Ok(Granted::Accepted); LENGTH];
    let mut again = [Ok(Granted::Accepted); LENGTH];
    let (sent, repeated) = replay(engines, &calls, &mut answers, &mut again);
    for (call, answer) in calls.iter().zip(answers.iter()) {
        println!(rt; "{}: {}", Said(*call), Told(*answer))?;
    }
    println!(rt; "{sent} calls sent; the week has {} events", week_length())?;
    println!(rt; "{repeated} calls were not refused; a second sheet gives them the same answers")?;
    print_expected(rt, &calls, SHIFTS_DONE)?;
    print_expected(rt, &calls, LOCKED)?;
    Ok(())
}

fn main(rt: HostRuntime) -> anyhow::Result<()> {
    run(&rt)
}
