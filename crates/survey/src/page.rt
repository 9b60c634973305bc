// The page, from its title to its verdict.
use clip::Rect;
use counting::refusals::{Group, Refusals, kind_of, name_in, number_of};
use counting::tally::{Paint, Tally};
use counting::verdict::{cut_off, fit, harms, little, total};
use measure::{centimetres, ice};
use output::Text;
use repeats::Repeats;
use std::fmt;
use std::fmt::Write;
use surveying::Surveyed;
use words::{harmless, of_kind};

// A box: its corners.
fn corners(out: &mut Text<'_>, r: Rect) -> fmt::Result {
    writeln!(out, "{} {} to {} {}", r.left, r.bottom, r.right, r.top)
}

fn title(out: &mut Text<'_>, hard: Rect, scale: u8) -> fmt::Result {
    write!(out, "Survey of a drawing at 1:{scale}. Hard limits ")?;
    corners(out, hard)?;
    write!(
        out,
        "A unit is 0.025 mm on paper: 40 are a millimetre. The length of a stroke is the root of dx * dx + dy * dy,"
    )?;
    writeln!(out, " to a tenth of a unit,")?;
    writeln!(
        out,
        "rounded to the nearest. Metres are those on the ice.\n"
    )?;
    writeln!(out, " pen       strokes           units        metres")
}

// A length in units, with a decimal, and in metres on the ice ends a row.
fn lengths(out: &mut Text<'_>, tenths: u64, scale: u8) -> fmt::Result {
    let cm = centimetres(tenths, scale);
    writeln!(
        out,
        "{:>13}.{} {:>10}.{:02}",
        tenths / 10,
        tenths % 10,
        cm / 100,
        cm % 100
    )
}

// A row for each pen that paints: pens are 1 to 8.
fn pens(out: &mut Text<'_>, p: Paint, scale: u8) -> fmt::Result {
    for pen in 1..9 {
        if p.strokes[pen] > 0 {
            write!(out, "{pen:>4} {:>13} ", p.strokes[pen])?;
            lengths(out, p.lengths[pen], scale)?;
        }
    }
    Ok(())
}

fn paint(out: &mut Text<'_>, p: Paint, scale: u8) -> fmt::Result {
    pens(out, p, scale)?;
    write!(out, " all {:>13} ", total(p.strokes))?;
    lengths(out, total(p.lengths), scale)?;
    write!(out, " empty driving     ")?;
    lengths(out, p.empty, scale)?;
    write!(
        out,
        "Empty driving is from the end of each stroke to the start of the next;"
    )?;
    writeln!(out, " before the first stroke none is counted.\n")
}

// How wide and how high a box is on the ice, in metres with two decimals.
fn size(out: &mut Text<'_>, r: Rect, scale: u8) -> fmt::Result {
    let wide = ice(r.left, r.right, scale);
    let high = ice(r.bottom, r.top, scale);
    write!(
        out,
        "{}.{:02} m by {}.{:02} m",
        wide / 100,
        wide % 100,
        high / 100,
        high % 100
    )
}

// A box, if there is one, and how much of the sheet it takes.
fn covered(out: &mut Text<'_>, area: Option<Rect>, hard: Rect, scale: u8) -> fmt::Result {
    if let Some(r) = area {
        write!(out, "          ")?;
        size(out, r, scale)?;
        write!(out, " of ")?;
        size(out, hard, scale)?;
        writeln!(out)?;
    }
    Ok(())
}

fn extent(out: &mut Text<'_>, area: Option<Rect>) -> fmt::Result {
    match area {
        Some(r) => corners(out, r),
        None => writeln!(out, "nothing"),
    }
}

// Where the drawing lies, and what the limits cut off.
fn boxes(out: &mut Text<'_>, t: Tally, hard: Rect, scale: u8) -> fmt::Result {
    write!(out, "Painted:  ")?;
    extent(out, t.paint.area)?;
    covered(out, t.paint.area, hard, scale)?;
    if cut_off(t) > 0 {
        write!(out, "Drawn:    ")?;
        extent(out, t.asked)?;
    }
    writeln!(
        out,
        "Segments: {} whole, {} clipped by the limits, {} hidden outside them\n",
        t.whole, t.clipped, t.hidden
    )
}

// How many lines are painted twice, if any, and where the first is.
fn twice(out: &mut Text<'_>, r: Repeats) -> fmt::Result {
    if r.twice == 0 {
        return Ok(());
    }
    let line = r.first;
    writeln!(
        out,
        "Twice:    {} painted over a line with the same two ends, the first from {} {} to {} {}\n",
        r.twice, line.b, line.c, line.d, line.e
    )
}

// The places of a group; of those past the sixth how many there are.
fn places(out: &mut Text<'_>, g: Group) -> fmt::Result {
    let mut left = g.count;
    for &place in &g.places {
        if left == 0 {
            return Ok(());
        }
        left -= 1;
        write!(out, "{place}{}", if left == 0 { '\n' } else { ' ' })?;
    }
    if left > 0 {
        writeln!(out, "and {left} more")?;
    }
    Ok(())
}

// A group: name, number, count and places, and below it what becomes of it. What is harmless is said to be; of line types their words say when.
fn group(out: &mut Text<'_>, g: Group) -> fmt::Result {
    let name = name_in(g.key);
    let kind = kind_of(g.key);
    write!(out, "  ")?;
    out.write_bytes(&[name.first, name.second])?;
    write!(out, "{:>8} {:>8}   ", number_of(g.key), g.count)?;
    places(out, g)?;
    write!(out, "       ")?;
    if kind != b't' && harmless(kind) {
        write!(out, "harmless: ")?;
    }
    writeln!(out, "{}", of_kind(kind))
}

// How many replies were made, if any: they are harmless.
fn replies(out: &mut Text<'_>, count: u64) -> fmt::Result {
    if count == 0 {
        return Ok(());
    }
    writeln!(out, "Replies:  {count} made (OA, OE, OH, OP, OW)\n")
}

fn refused(out: &mut Text<'_>, r: Refusals) -> fmt::Result {
    if r.groups[0].count == 0 {
        return writeln!(out, "Refused: nothing\n");
    }
    writeln!(
        out,
        "Refused:\nname  number    count   bytes, counted from 1"
    )?;
    for &g in &r.groups {
        if g.count == 0 {
            break;
        }
        group(out, g)?;
    }
    if r.others > 0 {
        writeln!(out, "  and {} more, of other names or numbers", r.others)?;
    }
    writeln!(out)
}

// A reason that counts, if there is anything to count.
fn reason(out: &mut Text<'_>, words: &str, count: u64) -> fmt::Result {
    if count == 0 {
        return Ok(());
    }
    write!(out, " {words}: {count}.")
}

// Why a drawing is not fit to paint.
fn reasons(out: &mut Text<'_>, s: Surveyed) -> fmt::Result {
    let harm = harms(s.refusals, s.broken);
    reason(out, "refusals that change the drawing", harm)?;
    reason(out, "of them escape sequences broken off", s.broken)?;
    reason(out, "line types that come out without gaps", s.types)?;
    if s.lost > 0 {
        write!(
            out,
            " lines drawn with no pen in hand: {}, none from byte {} on.",
            s.lost, s.first
        )?;
    }
    reason(out, "segments cut off by the limits", cut_off(s.tally))?;
    if s.unended {
        write!(out, " the last instruction is not ended.")?;
    }
    if s.unread {
        write!(out, " the drawing could not be read to its end.")?;
    }
    if s.tally.paint.end.is_none() {
        write!(out, " nothing is painted.")?;
    }
    Ok(())
}

// What to look at before a drawing is painted that is fit.
fn warnings(out: &mut Text<'_>, s: Surveyed, hard: Rect) -> fmt::Result {
    if little(s.tally.paint.area, hard) {
        write!(
            out,
            ", but look first: less than nine tenths of the sheet is used, across and along. Was it written at another scale?"
        )?;
    } else if s.repeats.twice > 0 {
        write!(out, ", but look first:")?;
    }
    reason(out, "lines painted twice", s.repeats.twice)
}

fn verdict(out: &mut Text<'_>, s: Surveyed, hard: Rect) -> fmt::Result {
    if fit(
        s.tally, s.refusals, s.broken, s.types, s.lost, s.unended, s.unread,
    ) {
        write!(out, "fit to paint")?;
        warnings(out, s, hard)?;
    } else {
        write!(out, "not fit to paint:")?;
        reasons(out, s)?;
    }
    writeln!(out)
}

fn parts(out: &mut Text<'_>, hard: Rect, s: Surveyed, scale: u8) -> fmt::Result {
    title(out, hard, scale)?;
    paint(out, s.tally.paint, scale)?;
    boxes(out, s.tally, hard, scale)?;
    twice(out, s.repeats)?;
    replies(out, s.replies)?;
    refused(out, s.refusals)?;
    verdict(out, s, hard)
}

pub fn page(rt: &HostRuntime, hard: Rect, s: Surveyed, scale: u8) {
    let mut out = Text::new(rt);
    // a write that failed is told at the end
    let _ = parts(&mut out, hard, s, scale);
    out.finish(b"survey: standard output");
}
