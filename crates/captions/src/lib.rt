// What stands above the sheet: its size and scale, the counts, the refusals in groups, and the pens with their metres.
#![tactic(auto)]

use counting::refusals::{Refusals, kind_of, name_in, number_of};
use counting::verdict::total;
use measure::centimetres;
use noting::Inks;
use output::Text;
use sheets::{Grid, Sheet};
use std::fmt;
use std::fmt::Write;
use words::{harmless, of_kind};

// A whole input, or what could be read and written of it: what is painted, what was refused, how often, how many moves among it, and how much that changes the
// drawing; how many bytes were read, and whether the rest could not be: a flag and no Result, since all else is told in either case.
#[derive(Clone, Copy)]
pub struct Painted {
    pub inks: Inks,
    pub refusals: Refusals,
    pub refused: u64,
    pub moves: u64,
    pub harms: u64,
    pub read: u64,
    pub unread: bool,
}

// So many groups have a line.
const SHOWN: usize = 6;

// So many centimetres, as metres with two decimals.
#[derive(Drop)]
struct Metres(u64);

impl fmt::Display for Metres {
    fn fmt<W: fmt::Write>(&self, f: &mut fmt::Formatter<W>) -> fmt::Result {
        write!(f, "{}.{:02} m", self.0 / 100, self.0 % 100)
    }
}

// A line of text begins, so far from the left and from the top.
fn row(out: &mut Text<'_>, x: u64, y: u64) -> fmt::Result {
    write!(out, "<text x=\"{x}\" y=\"{y}\">")
}

// How large the sheet is on the ice, at which scale, and how far the lines of the grid are apart.
fn place(out: &mut Text<'_>, s: Sheet, g: Grid) -> fmt::Result {
    row(out, s.margin, s.line.saturating_mul(2))?;
    write!(
        out,
        "{} by {} at 1:{}",
        Metres(g.across),
        Metres(g.along),
        g.scale
    )?;
    writeln!(
        out,
        ", a line of the grid every {} m from the lower left corner</text>",
        g.step
    )
}

// A drawing of which a refusal changes something is not fit to paint; of any other survey decides.
fn verdict(out: &mut Text<'_>, harms: u64) -> fmt::Result {
    if harms > 0 {
        write!(out, "<tspan style=\"fill:#d00000;font-weight:bold\">")?;
        return writeln!(
            out,
            "not fit to paint: refusals change the drawing</tspan></text>"
        );
    }
    writeln!(out, "survey tells whether it is fit to paint</text>")
}

// How many strokes and dots among them there are, how many refusals and moves among them, and what that means.
fn counts(out: &mut Text<'_>, s: Sheet, p: Painted) -> fmt::Result {
    row(out, s.margin, s.line)?;
    write!(
        out,
        "strokes: {}, of them dots: {}",
        total(p.inks.strokes),
        p.inks.dots
    )?;
    write!(
        out,
        ", refusals: {}, of them moves: {}. ",
        p.refused, p.moves
    )?;
    verdict(out, p.harms)
}

// What the ring and the crosses are, or that the drawing is not whole.
fn signs(out: &mut Text<'_>, s: Sheet, p: Painted) -> fmt::Result {
    row(out, s.margin, s.line.saturating_mul(3))?;
    if p.unread {
        return writeln!(out, "the drawing could not be read to its end</text>");
    }
    if total(p.inks.strokes) > 0 {
        write!(out, "ring: the first stroke starts here. ")?;
    }
    if p.refused > 0 {
        write!(out, "cross: here the pen stood at a refusal (the first 40)")?;
    }
    writeln!(out, "</text>")
}

// What dashes are, if a move was refused.
fn dashes(out: &mut Text<'_>, s: Sheet, moves: u64) -> fmt::Result {
    if moves == 0 {
        return Ok(());
    }
    row(out, s.margin, s.line.saturating_mul(4))?;
    write!(
        out,
        "dashed: after a refused move, up to the next move with the pen up;"
    )?;
    writeln!(out, " these lines start at a wrong place</text>")
}

// A group of refusals: its name and number, how many there are, the place of the first, and what becomes of them. What is harmless is said to be; of line types
// their words say when.
fn group(out: &mut Text<'_>, key: u64, count: u64, first: u64) -> fmt::Result {
    let name = name_in(key);
    let kind = kind_of(key);
    out.write_bytes(&[name.first, name.second])?;
    write!(
        out,
        " refused with {} ({count}, the first at byte {first}): ",
        number_of(key)
    )?;
    if kind != b't' && harmless(kind) {
        write!(out, "harmless: ")?;
    }
    write!(out, "{}", of_kind(kind))
}

// The groups of refusals, from a line on. Answers where the next line stands, and how many refusals have one.
fn groups(out: &mut Text<'_>, s: Sheet, r: Refusals, from: u64) -> Result<(u64, u64), fmt::Error> {
    let mut y = from;
    let mut shown: u64 = 0;
    for g in &r.groups[..SHOWN] {
        if g.count == 0 {
            break;
        }
        row(out, s.margin, y)?;
        group(out, g.key, g.count, g.places[0])?;
        writeln!(out, "</text>")?;
        shown = shown.saturating_add(g.count);
        y = y.saturating_add(s.line);
    }
    Ok((y, shown))
}

// A pen: a piece of its line as long as a letter is high, and after it its number, its metres and its strokes.
fn pen_row(
    out: &mut Text<'_>,
    x: u64,
    y: u64,
    letter: u64,
    pen: usize,
    length: Metres,
    strokes: u64,
) -> fmt::Result {
    let middle = y.saturating_sub(letter / 3);
    writeln!(
        out,
        "<path class=\"w p{pen}\" d=\"M{x} {middle}h{letter}\"/>"
    )?;
    row(out, x.saturating_add(letter.saturating_mul(2)), y)?;
    writeln!(out, "pen {pen}: {length} in {strokes} strokes</text>")
}

// The pens that paint, four to a line.
fn legend(out: &mut Text<'_>, s: Sheet, g: Grid, i: Inks, from: u64) -> fmt::Result {
    let mut x = s.margin;
    let mut y = from;
    let mut shown: usize = 0;
    for pen in 1..9 {
        let strokes = i.strokes[pen];
        if strokes > 0 {
            let length = Metres(centimetres(i.lengths[pen], g.scale));
            pen_row(out, x, y, s.letter, pen, length, strokes)?;
            x = x.saturating_add(s.wide / 4);
            shown += 1;
        }
        if shown == 4 {
            x = s.margin;
            y = from.saturating_add(s.line);
        }
    }
    Ok(())
}

// All of it.
pub fn summary(out: &mut Text<'_>, s: Sheet, g: Grid, p: Painted) -> fmt::Result {
    counts(out, s, p)?;
    place(out, s, g)?;
    signs(out, s, p)?;
    dashes(out, s, p.moves)?;
    legend(out, s, g, p.inks, s.line.saturating_mul(5))?;
    let (y, shown) = groups(out, s, p.refusals, s.line.saturating_mul(7))?;
    if p.refused > shown {
        row(out, s.margin, y)?;
        writeln!(
            out,
            "and {} more, of other names or numbers</text>",
            p.refused - shown
        )?;
    }
    Ok(())
}
