// The page: the sheet with its hard limits as a frame and a grid in metres, and room above it for what is said of the drawing. All lengths are plotter units; a
// browser shows the whole page, however wide its window is.
#![tactic(auto)]

ghost use Rattle.std.specs.Prelude.{◌≡◌};
ghost use Rattle.sheets.specs.Sheet.{sheet_of, step_of, cell_of, grid_of};

use clip::Rect;
use measure::{ice, side};
use output::Text;
use std::fmt;
use std::fmt::Write;

// Where the sheet begins, and how wide and high it is; the height of a letter, from line to line, and from the middle of a dot to its edge; what is left free
// around the sheet; where its lower edge stands on the page; and how wide and high the page is.
#[derive(Clone, Copy)]
pub struct Sheet {
    pub left: i64,
    pub bottom: i64,
    pub width: u64,
    pub height: u64,
    pub letter: u64,
    pub line: u64,
    pub dot: u64,
    pub margin: u64,
    pub base: u64,
    pub wide: u64,
    pub high: u64,
}

// A grid: from line to line in metres and in units, at a scale; and how wide and high the sheet is in centimetres on the ice.
#[derive(Clone, Copy)]
pub struct Grid {
    pub step: u8,
    pub cell: u64,
    pub scale: u8,
    pub across: u64,
    pub along: u64,
}

// A text above the sheet has so many lines, and a page room for so many letters.
const LINES: u64 = 14;

const LETTERS: u64 = 76;

// A grid has fewer lines than this.
const MOST: u64 = 64;

// The page for these hard limits: the larger the sheet, the larger its letters.
pub fn sheet_of(r: Rect) -> Sheet
    ensures { result ≡ sheet_of r }
{
    let width = side(r.right, r.left);
    let height = side(r.top, r.bottom);
    let letter = (width + height) / 160 + 1;
    let line = letter * 3 / 2;
    Sheet {
        left: r.left,
        bottom: r.bottom,
        width,
        height,
        letter,
        line,
        dot: letter / 2 + 1,
        margin: letter * 3,
        base: line * LINES + height,
        wide: width.max(letter * LETTERS) + letter * 6,
        high: line * LINES + height + letter * 3,
    }
}

// How many metres are from line to line, where the longer side has so many centimetres.
#[tactic(auto, unfolding(crate::specs::Sheet::step_of))]
fn step_of(centimetres: u64) -> u8
    ensures { result ≡ step_of centimetres }
{
    match centimetres {
        0..=1200 => 1,
        1201..=2400 => 2,
        2401..=6000 => 5,
        6001..=12000 => 10,
        12001..=24000 => 20,
        _ => 50,
    }
}

// So many metres in units: 40 units are a millimetre on paper.
#[tactic(auto, unfolding(crate::specs::Sheet::cell_of))]
fn cell_of(step: u8, scale: u8) -> u64
    ensures { result ≡ cell_of step scale }
{
    if scale == 0 {
        return 40000;
    }
    u64::from(step) * 40000 / u64::from(scale)
}

// The grid for these hard limits.
pub fn grid_of(r: Rect, scale: u8) -> Grid
    ensures { result ≡ grid_of r scale }
{
    let across = ice(r.left, r.right, scale);
    let along = ice(r.bottom, r.top, scale);
    let step = step_of(across.max(along));
    Grid {
        step,
        cell: cell_of(step, scale),
        scale,
        across,
        along,
    }
}

// The colours of the pens, and what lines, dots, frame, grid and text look like. A dot has a white rim, to be seen on a line. Lines stay thin in an enlarged page.
const STYLE: &str =
    "<style>path,circle,rect{fill:none;stroke:currentColor;stroke-width:1.5px;stroke-linecap:round;stroke-linejoin:round;vector-effect:non-scaling-stroke}
.p1{color:#000000}.p2{color:#d00000}.p3{color:#0040d0}.p4{color:#d0a000}
.p5{color:#00902a}.p6{color:#c000c0}.p7{color:#00a0b0}.p8{color:#804000}
.d{fill:currentColor;stroke:#ffffff}.f{color:#808080;stroke-width:1px}.g{color:#c4d0dc;stroke-width:.7px}.w{stroke-width:5px}
.a{stroke-dasharray:7 5;stroke-linecap:butt}.s{color:#00902a;stroke-width:2px}.x{color:#ff0060;stroke-width:2.5px}
";

fn style(out: &mut Text<'_>, s: Sheet) -> fmt::Result {
    out.write_str(STYLE)?;
    write!(
        out,
        "text{{font-family:monospace;fill:#202020;font-size:{}px}}",
        s.letter
    )?;
    writeln!(
        out,
        ".n{{text-anchor:middle;fill:#607080}}.m{{text-anchor:end;fill:#607080}}</style>"
    )
}

// A number along the lower edge, for a line that goes up.
fn number_below(out: &mut Text<'_>, s: Sheet, at: u64, metres: u64) -> fmt::Result {
    let x = s.margin.saturating_add(at);
    let y = s.base.saturating_add(s.line);
    writeln!(out, "<text class=\"n\" x=\"{x}\" y=\"{y}\">{metres}</text>")
}

// A number along the left edge, for a line across.
fn number_left(out: &mut Text<'_>, s: Sheet, at: u64, metres: u64) -> fmt::Result {
    let x = s.margin.saturating_sub(s.letter / 2);
    let y = s.base.saturating_sub(at);
    writeln!(
        out,
        "<text class=\"m\" dy=\".35em\" x=\"{x}\" y=\"{y}\">{metres}</text>"
    )
}

// Each line of the grid one way, as far as that goes: its place in units, and in metres from the lower left corner.
fn lines<F: Fn(&mut Text<'_>, u64, u64) -> fmt::Result>(
    out: &mut Text<'_>,
    g: Grid,
    reach: u64,
    put: F,
) -> fmt::Result
    requires { F.IsAlwaysCallable put }
{
    for i in 0..MOST {
        let at = g.cell.saturating_mul(i);
        if reach < at {
            break;
        }
        put(out, at, i * u64::from(g.step))?;
    }
    Ok(())
}

// The page, and the numbers along two edges of the sheet.
fn page(out: &mut Text<'_>, s: Sheet, g: Grid) -> fmt::Result {
    write!(
        out,
        "<svg xmlns=\"http://www.w3.org/2000/svg\" width=\"100%\" height=\"100%\""
    )?;
    writeln!(out, " viewBox=\"0 0 {} {}\">", s.wide, s.high)?;
    style(out, s)?;
    writeln!(
        out,
        "<rect width=\"100%\" height=\"100%\" style=\"fill:#ffffff;stroke:none\"/>"
    )?;
    lines(
        out,
        g,
        s.width,
        |out, at, metres| number_below(out, s, at, metres),
    )?;
    lines(
        out,
        g,
        s.height,
        |out, at, metres| number_left(out, s, at, metres),
    )
}

// The page as far as the first stroke: the sheet is turned over, so that y goes upwards.
pub fn head(out: &mut Text<'_>, s: Sheet, g: Grid) -> fmt::Result {
    let Sheet {
        left,
        bottom,
        width,
        height,
        ..
    } = s;
    page(out, s, g)?;
    writeln!(
        out,
        "<g transform=\"translate({} {}) scale(1 -1)\">",
        s.margin, s.base
    )?;
    write!(out, "<path class=\"g\" d=\"")?;
    lines(out, g, width, |out, at, _| write!(out, "M{at} 0v{height}"))?;
    lines(out, g, height, |out, at, _| write!(out, "M0 {at}h{width}"))?;
    writeln!(out, "\"/>")?;
    writeln!(
        out,
        "<rect class=\"f\" width=\"{width}\" height=\"{height}\"/>"
    )?;
    write!(
        out,
        "<svg overflow=\"visible\" width=\"{width}\" height=\"{height}\""
    )?;
    writeln!(out, " viewBox=\"{left} {bottom} {width} {height}\">")
}
