// What moves the carriage and leaves something to draw: moves, circles, arcs, rectangles and polygons.
#![tactic(auto)]

pub mod arcs;
pub mod circles;
pub mod moves;
pub mod polygons;
