// AA and AR: an arc from the position about a centre, through a swept angle. Its chords are drawn as a circle's are, from a start and through a sweep of their own.
ghost use Rattle.std.specs.Prelude.{◌≡◌, true, ◌≤◌};
ghost use Rattle.reader.specs.Sizes.{Small};
ghost use Rattle.sines.specs.Table as T;
ghost use Rattle.plane.specs.Bounds.{most_angle};
ghost use Rattle.hpgl.specs.Numbers.{least_angle};
ghost use Rattle.hpgl.specs.Rules as R;
ghost use Rattle.hpgl.specs.Valid.{LocatablePosition, WholeCircle, ValidCore};

use super::circles::{angle_or, from_to};
use super::moves::inked;
use exact::nearest_div;
use hpgl::{Acted, Action, Circle, Core, Position};
use placing::arc::{arc_fits, way_fits, way_from};
use placing::circle::{centre_of, vertex_point};
use plane::circle::Way;
use reader::Numbers;
use rulekit::acts::{done, first_two, refuse};
use rulekit::changes::{with_carriage, with_position};
use rulekit::numbers::{LEAST_ANGLE, MOST_ANGLE, OUT_OF_RANGE, TENTH, TOO_FAR, WHOLE_TURN};
use rulekit::places::{absolute_position, axis_x, axis_y, located, relative_position, rest_at};
use sines::table;

#[tactic(auto, unfolding(hpgl::specs::Rules::swept_angle))]
fn swept_angle(n: Numbers) -> i64
    requires { Small n }
    ensures { result ≡ R.swept_angle n }
{
    nearest_div(n.third, TENTH)
}

#[tactic(auto, unfolding(hpgl::specs::Rules::arc_angle))]
fn arc_angle(n: Numbers) -> i64
    requires { Small n }
    ensures { result ≡ R.arc_angle n }
{
    angle_or(n.count == 3, n.fourth)
}

// Whether a swept angle is at most a turn either way, and not 0.
fn good_sweep(sweep: i64) -> bool
    ensures { result ≡ R.good_sweep sweep }
{
    from_to(-WHOLE_TURN, sweep, WHOLE_TURN) && sweep != 0
}

// The arc from the position about a centre.
fn arc_of(c: Core, centre: Position, sweep: i64, angle: u16) -> Circle
    requires { ValidCore c × LocatablePosition c.settings centre }
    ensures { result ≡ R.arc c centre sweep angle }
{
    let position = c.carriage.position;
    let x = axis_x(c.settings);
    let y = axis_y(c.settings);
    let u = way_from(x, position.x, centre.x);
    let v = way_from(y, position.y, centre.y);
    let cx = centre_of(x, centre.x);
    let cy = centre_of(y, centre.y);
    let start = located(c.settings, position);
    Circle {
        x: cx,
        y: cy,
        radius: Way { u, v },
        angle,
        start,
        sweep,
    }
}

// The position goes to the last vertex, and the chords are drawn if the pen is down and paints.
fn follow(c: Core, o: Circle, sines: &[u32]) -> Acted
    requires { WholeCircle o × (sines.now ≡ T.sines) }
    ensures { result ≡ R.follow c o }
{
    let last = vertex_point(o.x, o.y, o.radius, sines, o.sweep);
    let moved = with_carriage(c, with_position(c.carriage, rest_at(last)));
    if c.carriage.pen.down && inked(c) {
        done(moved, Action::Chords(o))
    } else {
        done(moved, Action::Keep)
    }
}

// An arc whose way and whose vertices are to be judged.
fn arc_by(c: Core, centre: Position, sweep: i64, angle: u16) -> Acted
    requires { ValidCore c × LocatablePosition c.settings centre × (R.good_sweep sweep ≡ true) × (least_angle ≤ angle) × (angle ≤ most_angle) }
    ensures { result ≡ R.arc_by c (R.arc c centre sweep angle) }
{
    let o = arc_of(c, centre, sweep, angle);
    if way_fits(o.radius) {
        let sines = table();
        if arc_fits(o.x, o.y, o.radius, &sines, o.sweep, o.angle as usize) {
            return follow(c, o, &sines);
        }
        return refuse(c, TOO_FAR);
    }
    refuse(c, OUT_OF_RANGE)
}

// An arc whose angles are to be judged.
fn arc_about(c: Core, centre: Position, n: Numbers) -> Acted
    requires { ValidCore c × LocatablePosition c.settings centre × Small n }
    ensures { result ≡ R.arc_about c centre n }
{
    let sweep = swept_angle(n);
    if good_sweep(sweep) {
        let angle = arc_angle(n);
        if from_to(LEAST_ANGLE, angle, MOST_ANGLE) {
            return arc_by(c, centre, sweep, angle as u16);
        }
        return refuse(c, OUT_OF_RANGE);
    }
    refuse(c, OUT_OF_RANGE)
}

// AA, page 5-8 of the DraftPro manual: the centre in absolute sense.
pub fn aa_rule(c: Core, n: Numbers) -> Acted
    requires { ValidCore c × Small n }
    ensures { result ≡ R.aa_rule c n }
{
    arc_about(c, absolute_position(c.settings, first_two(n)), n)
}

// AR, page 5-10: the centre in relative sense.
pub fn ar_rule(c: Core, n: Numbers) -> Acted
    requires { ValidCore c × Small n }
    ensures { result ≡ R.ar_rule c n }
{
    let here = c.carriage.position;
    arc_about(c, relative_position(here, first_two(n)), n)
}
