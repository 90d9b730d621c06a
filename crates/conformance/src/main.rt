// Runs the library over every sheet of data/ and compares what it would print with what is expected.
#![tactic(auto)]

use reports::report::report;
use std::fs;

// Whether the sheet with this name gives the lines that are expected of it.
fn agrees(rt: &HostRuntime, name: &str) -> anyhow::Result<bool> {
    let sheet = fs::read(rt, format!(in rt.alloc(); "{name}.hnw")?.as_str())?;
    let expected = fs::read_to_string(rt, format!(in rt.alloc(); "{name}.out")?.as_str())?;
    let text = report(rt.alloc(), sheet.as_slice())?;
    Ok(text.as_str() == expected.as_str())
}

fn main(rt: HostRuntime) -> anyhow::Result<()> {
    let cases = fs::read_to_string(&rt, "cases.txt")?;
    let sheets = cases.lines().count();
    let mut deviations = 0u64;
    for name in cases.lines() {
        if !agrees(&rt, name)? {
            deviations = deviations.saturating_add(1);
            println!(rt; "{name} deviates")?;
        }
    }
    println!(rt; "{sheets} sheets, {deviations} deviations")?;
    Ok(())
}
