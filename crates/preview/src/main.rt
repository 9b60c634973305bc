// The program preview: HP-GL in, a picture of its strokes as SVG on standard output: the sheet with a grid in metres, and above it what is painted and what is
// refused.
#![tactic(auto)]

use arguments::desk::{asked, ready, refused};
use captions::{Painted, summary};
use machine::Machine;

mod strokes;

use output::Text;
use sheets::{Grid, Sheet, grid_of, head, sheet_of};
use std::fmt;
use std::fmt::Write;
use streams::{Source, Stream};
use strokes::paint;

// The page of a drawing, if something of it could be read.
fn page(
    out: &mut Text<'_>,
    machine: Machine,
    s: Sheet,
    g: Grid,
    file: usize,
    source: &mut Stream<Source>,
) -> Result<Option<Painted>, fmt::Error> {
    head(out, s, g)?;
    let p = paint(out, machine, s.dot, file, source)?;
    if p.unread && p.read == 0 {
        return Ok(None);
    }
    writeln!(out, "</svg></g>")?;
    summary(out, s, g, p)?;
    writeln!(out, "</svg>")?;
    Ok(Some(p))
}

fn main(rt: HostRuntime) {
    let r = asked(&rt);
    let Some(mut source) = ready(
        &rt,
        b"preview",
        b"Reads HP-GL and writes a picture of its strokes (SVG) on standard output, with what is refused.\n",
        r,
    ) else {
        return;
    };
    let hard = r.limits;
    let started = Machine::fresh(hard.left, hard.bottom, hard.right, hard.top);
    if started.number != 0 {
        refused(&rt, b"preview");
        return;
    }
    let mut out = Text::new(&rt);
    let painted = page(
        &mut out,
        started.machine,
        sheet_of(hard),
        grid_of(hard, r.scale),
        r.file,
        &mut source,
    );
    if !matches!(painted, Ok(None)) {
        out.finish(b"preview: standard output");
    }
}
