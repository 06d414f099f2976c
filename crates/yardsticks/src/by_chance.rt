//! Numbers by chance.

ghost use Rattle.std.specs.Prelude.{◌<◌};

/// The next of numbers below `below` that look like chance, and are the same in each run.
pub fn chance(state: &mut u64, below: u32) -> u32
    requires { 0 < below }
    ensures { result < below }
{
    *state = state
        .wrapping_mul(6_364_136_223_846_793_005)
        .wrapping_add(1_442_695_040_888_963_407);
    ((*state >> 33) % below as u64) as u32
}
