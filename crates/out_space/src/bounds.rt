//! How many messages a lane may hold.

ghost use Rattle.std.specs.Prelude.{◌≡◌, ◌≤◌};
ghost use Rattle.op_model.specs.Run.Bounds.{request_bound as requests_at_most, reply_bound as replies_at_most};

use line_map::Machine;

/// The most requests that a lane holds: one for each line that may be pending at a home, one of its node, and the eviction messages that the gate lets through.
pub fn request_bound(cfg: &Machine) -> u32
    ensures value { result ≡ requests_at_most cfg.now }
    ensures small { result ≤ 81 }
{
    cfg.pending() + 1 + cfg.evicts()
}

/// The most replies that a lane holds: one for each line that may be pending at a home, and one to its node.
pub fn reply_bound(cfg: &Machine) -> u32
    ensures value { result ≡ replies_at_most cfg.now }
    ensures small { result ≤ 65 }
{
    cfg.pending() + 1
}
