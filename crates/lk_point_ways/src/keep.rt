//! Whether control goes through the points of a program function by function.
ghost use Rattle.std.specs.Prelude.{◌↔◌, IsTrue};
ghost use Rattle.lk_point_ways.specs.PointWays.{KeepWays};

use crate::ends::{keep_functions, keep_roots};
use crate::going::keep_points;
use lk_facts::Points;

/// Whether control goes through the points of a program function by function (C99 6.8, 6.9.1): operands and
/// successors of a point stand in its function. A function begins with a point that does nothing and is
/// nobody's successor, and ends with one that does nothing and has none. A return leads there, and each other
/// point has as many successors as its action asks for, that of a POSIX `pthread_create` two. A wait takes
/// its mutex again before anything else (POSIX `pthread_cond_wait`), and `main` begins at the start of the
/// program alone. Each function and its root lead to one another.
///
/// It takes no memory, and a time that grows as the points, their operands and their successors.
pub fn keep_ways(points: &Points) -> bool
    ensures { IsTrue result ↔ KeepWays points.now }
{
    keep_points(points) && keep_functions(points) && keep_roots(points)
}
