// The store: a row for each edge.
ghost use Rattle.std.specs.Prelude.{◌≡◌, length};
ghost use Rattle.hpgl.specs.Numbers.{most_edges};
ghost use Rattle.rows.specs.Rows.{over};
ghost use Rattle.saved.specs.Places.{edges_place};
ghost use Rattle.saved.specs.Saved as S;

use super::places::EDGES;
use super::sheet::{flag_in, from_of, to_of};
use clip::Point;
use hpgl::{Edge, MOST_EDGES, Store};
use rows::{Row, flag_number, put_row, row_at};

const ROW: usize = 5;

fn edge_row(e: Edge) -> Row
    ensures { result ≡ S.edge_row e }
{
    let from = e.from;
    let to = e.to;
    Row {
        a: from.x,
        b: from.y,
        c: to.x,
        d: to.y,
        e: flag_number(e.down),
    }
}

fn edge_of(row: Row) -> Edge
    ensures { result ≡ S.edge_of row }
{
    Edge {
        from: from_of(row),
        to: to_of(row),
        down: flag_in(row),
    }
}

pub fn put_edges(s: Store, numbers: &mut [i64])
    requires { (length s.edges ≡ most_edges) × (length numbers.old ≡ S.state_numbers) }
    ensures { numbers.new ≡ over numbers.old edges_place (S.edges_numbers s.edges) }
{
    for (i, e) in s.edges.iter().enumerate() {
        put_row(numbers, EDGES + i * ROW, edge_row(*e));
    }
}

pub fn edges_at(numbers: &[i64]) -> Store
    requires { length numbers.now ≡ S.state_numbers }
    ensures { result ≡ S.store_at numbers.now }
{
    let origin = Point { x: 0, y: 0 };
    let none = Edge {
        from: origin,
        to: origin,
        down: false,
    };
    let mut edges = [none; MOST_EDGES];
    for (i, e) in edges.iter_mut().enumerate() {
        *e = edge_of(row_at(numbers, EDGES + i * ROW));
    }
    Store { edges }
}
