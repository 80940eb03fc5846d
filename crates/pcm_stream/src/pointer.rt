//! Where a count of frames stands as a pointer of a ring.
ghost use Rattle.std.specs.Prelude.{◌≡◌, ◌%◌, ◌<◌};

/// A count of frames as a pointer that goes on at 0 at the boundary.
///
/// A count comes to a boundary after 2 to the power 61 frames at the earliest. So it is compared first, since a division
/// would take longer than all else that a call counts.
pub fn wrap_count(count: u64, boundary: u64) -> u64
    requires { 0 < boundary }
    ensures { result ≡ count % boundary }
{
    if count < boundary {
        count
    } else {
        count % boundary
    }
}
