// Prints the sine and the cosine of every tenth of a degree of a turn, scaled by 100,000, a line for each: angle, sine, cosine.
// The stored `stdout` is of an outside program (docs/VECTORS.md).
#![tactic(auto)]

ghost use Rattle.std.specs.Prelude.{◌≡◌};
ghost use Rattle.sines.specs.Table as S;

use output::Text;
use sines::{cosine, sine};
use std::fmt;
use std::fmt::Write;

const TURN: u16 = 3600;

fn put_line(out: &mut Text<'_>, table: &[u32], tenths: u16) -> fmt::Result
    requires { table.now ≡ S.sines }
{
    let angle = i64::from(tenths);
    writeln!(
        out,
        "{angle} {} {}",
        sine(table, angle),
        cosine(table, angle)
    )
}

fn put_lines(out: &mut Text<'_>) -> fmt::Result {
    let table = sines::table();
    for tenths in 0..TURN {
        put_line(out, &table, tenths)?;
    }
    Ok(())
}

fn main(rt: HostRuntime) {
    let mut out = Text::new(&rt);
    // a write that failed is told at the end
    let _ = put_lines(&mut out);
    out.finish(b"sinecheck: standard output");
}
