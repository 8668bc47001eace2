//! Replays recorded cases: each line of standard input is a program in hexadecimal, each line written its verdict.
//! The stored answers come from a checker that shares nothing with this one.
#![tactic(auto)]

use anyhow::anyhow;
use std::io::{BufRead, BufReader};

fn main(rt: HostRuntime) -> anyhow::Result<()> {
    let heap = rt.alloc();
    let mut answers = String::new(heap);
    for line in BufReader::new(heap, rt.stdin())?.lines(heap) {
        let Ok(program) = hex_text::text::decode(heap, line?.as_bytes()) else {
            return Err(anyhow!("a case is no hexadecimal text"));
        };
        writeln!(answers, "{}", verdicts::line(heap, &program)?)?;
    }
    rt.print(answers)?;
    Ok(())
}
