//! The room of lists that grow by doubling.
ghost use Rattle.std.specs.Prelude.{◌≡◌, ◌⊎◌, ◌*◌, ◌^◌, ◌<◌, ◌≤◌, min};
ghost use Rattle.rap_base.specs.Room.{IsDoubled};

/// Returns the first room of at least so much that a list comes to which doubles its first room when it is full. Past
/// 2^63 no room is doubled.
pub fn doubled(first: usize, least: usize) -> usize
    requires { 0 < first }
    ensures doubled { IsDoubled first result }
    ensures enough { min least (2 ^ 63) ≤ result }
    ensures near { (result ≡ first) ⊎ (result < 2 * least) }
{
    let mut room = first;
    'doublings: while room < least && room <= usize::MAX / 2 {
        room *= 2;
    }
    room
}
