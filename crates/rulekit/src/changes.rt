// A carriage, a core or settings with one part changed.
ghost use Rattle.std.specs.Prelude.{◌≡◌};
ghost use Rattle.hpgl.specs.Change as C;

use clip::Point;
use hpgl::{Carriage, Core, Memory, Pen, Polygon, Position, Scale, Settings, Window};

pub fn with_position(k: Carriage, p: Position) -> Carriage
    ensures { result ≡ C.with_position k p }
{
    Carriage { position: p, ..k }
}

pub fn with_pen(k: Carriage, p: Pen) -> Carriage
    ensures { result ≡ C.with_pen k p }
{
    Carriage { pen: p, ..k }
}

pub fn with_relative(k: Carriage, relative: bool) -> Carriage
    ensures { result ≡ C.with_relative k relative }
{
    Carriage { relative, ..k }
}

pub fn with_polygon(k: Carriage, g: Polygon) -> Carriage
    ensures { result ≡ C.with_polygon k g }
{
    Carriage { polygon: g, ..k }
}

pub fn with_memory(k: Carriage, n: Memory) -> Carriage
    ensures { result ≡ C.with_memory k n }
{
    Carriage { memory: n, ..k }
}

pub fn with_settings(c: Core, s: Settings) -> Core
    ensures { result ≡ C.with_settings c s }
{
    Core { settings: s, ..c }
}

pub fn with_carriage(c: Core, k: Carriage) -> Core
    ensures { result ≡ C.with_carriage c k }
{
    Core { carriage: k, ..c }
}

pub fn with_corners(s: Settings, p: Point, q: Point) -> Settings
    ensures { result ≡ C.with_corners s p q }
{
    Settings { p1: p, p2: q, ..s }
}

pub fn with_scale(s: Settings, k: Scale) -> Settings
    ensures { result ≡ C.with_scale s k }
{
    Settings { scale: k, ..s }
}

pub fn with_turn(s: Settings, turn: usize) -> Settings
    ensures { result ≡ C.with_turn s turn }
{
    Settings { turn, ..s }
}

pub fn with_window(s: Settings, w: Window) -> Settings
    ensures { result ≡ C.with_window s w }
{
    Settings { window: w, ..s }
}
