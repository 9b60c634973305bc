// Prints the table of refusals as docs/USERS.md has it: number, cause, what to do.
#![tactic(auto)]

use output::Text;
use std::fmt;
use std::fmt::Write;
use words::{advice, cause};

const NUMBERS: [u8; 11] = [1, 2, 3, 6, 7, 10, 11, 12, 20, 21, 31];

fn put_row(out: &mut Text<'_>, number: u8) -> fmt::Result {
    writeln!(out, "| {number} | {} | {} |", cause(number), advice(number))
}

fn put_table(out: &mut Text<'_>) -> fmt::Result {
    writeln!(out, "| number | cause | what to do |\n|---|---|---|")?;
    for number in NUMBERS {
        put_row(out, number)?;
    }
    Ok(())
}

fn main(rt: HostRuntime) {
    let mut out = Text::new(&rt);
    // a write that failed is told at the end
    let _ = put_table(&mut out);
    out.finish(b"wordtable: standard output");
}
