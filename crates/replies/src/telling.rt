// What OA, OP, OW, OH and OE tell, as it is when they are carried out.
ghost use Rattle.std.specs.Prelude.{◌≡◌};
ghost use Rattle.hpgl.specs.Replies as T;
ghost use Rattle.hpgl.specs.Rules as R;
ghost use Rattle.hpgl.specs.Valid.{ValidSettings, ValidCore};

use clip::Rect;
use hpgl::{Acted, Action, Core, Memory, Reply, Settings};
use rulekit::acts::done;
use rulekit::changes::{with_carriage, with_memory};
use rulekit::places::located;
use turns::turn::turned_back_box;

// The location, and 1 for pen down or 0 for up.
#[tactic(auto, unfolding(hpgl::specs::Replies::place_told))]
fn place_told(c: Core) -> Reply
    requires { ValidCore c }
    ensures { result ≡ T.place_told c }
{
    let p = located(c.settings, c.carriage.position);
    Reply {
        count: 3,
        first: p.x,
        second: p.y,
        third: if c.carriage.pen.down { 1 } else { 0 },
        fourth: 0,
    }
}

// P1 and P2.
#[tactic(auto, unfolding(hpgl::specs::Replies::corners_told))]
fn corners_told(c: Core) -> Reply
    ensures { result ≡ T.corners_told c }
{
    let s = c.settings;
    Reply {
        count: 4,
        first: s.p1.x,
        second: s.p1.y,
        third: s.p2.x,
        fourth: s.p2.y,
    }
}

// Left, bottom, right, top.
#[tactic(auto, unfolding(hpgl::specs::Replies::box_told))]
fn box_told(r: Rect) -> Reply
    ensures { result ≡ T.box_told r }
{
    Reply {
        count: 4,
        first: r.left,
        second: r.bottom,
        third: r.right,
        fourth: r.top,
    }
}

// The window, or without one the hard limits turned back.
#[tactic(auto, unfolding(hpgl::specs::Replies::window_shown))]
fn window_shown(s: Settings) -> Rect
    requires { ValidSettings s }
    ensures { result ≡ T.window_shown s }
{
    if s.window.set {
        s.window.area
    } else {
        turned_back_box(s.hard, s.turn)
    }
}

// The latest refusal that is remembered.
fn refusal_told(c: Core) -> Reply
    ensures { result ≡ T.refusal_told c }
{
    Reply {
        count: 1,
        first: c.carriage.memory.refusal as i64,
        second: 0,
        third: 0,
        fourth: 0,
    }
}

#[tactic(auto, unfolding(hpgl::specs::Rules::oa_rule))]
pub fn oa_rule(c: Core) -> Acted
    requires { ValidCore c }
    ensures { result ≡ R.oa_rule c }
{
    let told = place_told(c);
    done(c, Action::Answer(told))
}

#[tactic(auto, unfolding(hpgl::specs::Rules::op_rule))]
pub fn op_rule(c: Core) -> Acted
    ensures { result ≡ R.op_rule c }
{
    let told = corners_told(c);
    done(c, Action::Answer(told))
}

#[tactic(auto, unfolding(hpgl::specs::Rules::ow_rule, hpgl::specs::Replies::window_told))]
pub fn ow_rule(c: Core) -> Acted
    requires { ValidCore c }
    ensures { result ≡ R.ow_rule c }
{
    let told = box_told(window_shown(c.settings));
    done(c, Action::Answer(told))
}

#[tactic(auto, unfolding(hpgl::specs::Replies::limits_told, hpgl::specs::Rules::oh_rule))]
pub fn oh_rule(c: Core) -> Acted
    ensures { result ≡ R.oh_rule c }
{
    let told = box_told(c.settings.hard);
    done(c, Action::Answer(told))
}

// What it tells is forgotten.
#[tactic(auto, unfolding(hpgl::specs::Rules::oe_rule))]
pub fn oe_rule(c: Core) -> Acted
    ensures { result ≡ R.oe_rule c }
{
    let told = refusal_told(c);
    let carriage = with_memory(c.carriage, Memory { refusal: 0 });
    done(with_carriage(c, carriage), Action::Answer(told))
}
