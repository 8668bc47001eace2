//! `paclang verdicts`: a program in hexadecimal a line, a verdict a line.
use std::io;
use std::io::{BufRead, BufReader};
use std::process::ExitCode;

// Not shared with conformance: an error type for input and text would be no plainer than the loop.
/// Writes the verdict of each line of standard input, all at the end; nothing where a line is no hexadecimal text.
pub(crate) fn judge_lines(rt: &HostRuntime) -> io::Result<ExitCode> {
    let heap = rt.alloc();
    let mut answers = String::new(heap);
    let lines = BufReader::new(heap, rt.stdin())?.lines(heap);
    for (i, line) in lines.enumerate() {
        let Ok(program) = hex_text::text::decode(heap, line?.as_bytes()) else {
            let number = i.saturating_add(1);
            eprintln!(rt; "paclang: standard input: line {number}: no hexadecimal text")?;
            return Ok(ExitCode::FAILURE);
        };
        writeln!(answers, "{}", verdicts::line(heap, &program)?)?;
    }
    rt.print(answers)?;
    Ok(ExitCode::SUCCESS)
}
