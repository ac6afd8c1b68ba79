// 01's bench messages under small book K, each with its one condition false, true and unknown: the six numbers of every
// verdict, number, place, line, element, component and condition. What comes out is compared with ../stdout, which was
// worked out from 01. The longest message is run from C (c/test_judge.c).
#![tactic(auto)]

mod book_k;

use framing::Verdict;
use reading::service::Service;
use std::io;

// In the order of 01.
const MESSAGES: [&str; 14] = [
    "UNH+1'BGM+7'RFF+Z13:10001'UNT+4+1'",
    "UNH+1'BGM+7'RFF+Z13:10001'UNT+5+1'",
    "UNH+1'BGM+7'RFF+Z13:10001'UNT+5+2'",
    "UNH+1'BGM+7'RFF+Z13:10001'UNT+4+2'",
    "UNH+1'BGM+7'RFF+Z13:10001'LIN+1'QTY+145:5'UNT+6+1'",
    "UNH+1'BGM+7'RFF+Z13:10001'LIN+1'UNT+5+1'",
    "UNH+1'BGM+7'RFF+Z13:10001'LIN+1'QTY+145:5'LIN+2'UNT+7+1'",
    "UNH+1'BGM+7'RFF+Z13:10001'LIN+1'LIN+2'LIN+3'UNT+7+1'",
    "UNH+1'BGM+7'RFF+Z13:10001'QTY+145:5'LIN+1'UNT+6+1'",
    "UNH+1'BGM+7'UNT+3+1'",
    "UNH+1'BGM+7'RFF+Z13:10001'LIN+1,5'UNT+5+1'",
    "",
    "UNH+1",
    "UNH+1?A'",
];

// What may be known of the one condition, and the number that says so.
const STATES: [(&str, u8); 3] = [("false", 0), ("true", 1), ("unknown", 2)];

// No bench message under K has more segments than the tables have entries.
fn judge_under_k(message: &[u8], condition: u8) -> Verdict {
    let mut starts: [u32; 8] = [0; 8];
    let mut homes: [u32; 8] = [0; 8];
    let mut parents: [u32; 8] = [0; 8];
    judging::judge(
        Service::standard(),
        message,
        &book_k::BOOK_K,
        &[condition],
        &mut starts,
        &mut homes,
        &mut parents,
    )
}

// The message, and a line for each state of the condition.
fn bench(rt: &impl Print, message: &str) -> io::Result<()> {
    println!(rt; "{message}")?;
    for (state, condition) in STATES {
        let verdict = judge_under_k(message.as_bytes(), condition);
        let number = verdict.number;
        let place = verdict.place;
        println!(rt;
            "  {state:<7} {number} {} {} {} {} {}",
            place.at, place.line, place.element, place.component, verdict.condition
        )?;
    }
    Ok(())
}

fn main(rt: HostRuntime) -> io::Result<()> {
    for message in MESSAGES {
        bench(&rt, message)?;
    }
    Ok(())
}
