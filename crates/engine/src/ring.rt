// Where an index of a ring lies.
ghost use Rattle.std.specs.Prelude.{◌≡◌, ◌+◌, ◌%◌, ◌<◌, ◌≤◌};

use schedule::plan::Ring;

// The slot of an index in a ring.
pub(crate) fn slot(ring: &Ring, index: usize) -> usize
    requires some { 0 < ring.now.length }
    requires small { ring.now.base + ring.now.length ≤ 2048 }
    ensures is { result ≡ ring.now.base + index % ring.now.length }
    ensures inside { result < ring.now.base + ring.now.length }
{
    ring.base + index % ring.length
}
