//! Whether two rings have one shape.
ghost use Rattle.std.specs.Prelude.{◌≡◌, ◌↔◌, IsTrue};

use snd_base::Geometry;

/// Whether two geometries are the same, so that a stream of the one can use a port of the other.
pub fn is_same_ring(one: &Geometry, other: &Geometry) -> bool
    ensures { IsTrue result ↔ (one.now ≡ other.now) }
{
    if one.frames != other.frames || one.channels != other.channels {
        return false;
    }
    one.first_lap == other.first_lap
}
