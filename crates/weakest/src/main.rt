// Reads a sheet on standard input and prints its weakest division, or the number of a refusal.
#![tactic(auto)]

use reports::report::report;
use std::io::Read;

// No sheet of any weight kind is longer: the head, 64 codes of seven bytes, and 512 links of eight parts.
const LONGEST: u64 = 9 + 64 * 7 + 512 * (3 + 8 * 4);

// What is past one byte more than the longest sheet is not read: the first fault is the same without it.
fn run(rt: &HostRuntime) -> anyhow::Result<()> {
    let mut bytes = Vec::new(rt.alloc());
    rt.stdin().take(LONGEST + 1).read_to_end(&mut bytes)?;
    let text = report(rt.alloc(), bytes.as_slice())?;
    rt.print(text.as_str())?;
    Ok(())
}

// Ends with status 0 in every case; trouble with memory or the streams is told on standard error.
fn main(rt: HostRuntime) {
    if let Err(trouble) = run(&rt) {
        let _ = rt.eprintln(trouble);
    }
}
