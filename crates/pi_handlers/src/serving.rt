//! What the next operation finds in the cache.

ghost use Rattle.std.specs.Prelude.{◌≡◌, ◌<◌};
ghost use Rattle.line_map.specs.Sizes.{all_lines};
ghost use Rattle.op_model.specs.Tables.Processor.{serves as serves_op};
ghost use Rattle.op_model.specs.Shares.{copy_in};
ghost use Rattle.cpu_cache.specs.Caches.{is_set_taken, IsDirectMapped};

use cpu_cache::{Cache, CopyState};
use op_model::{Kind, Op};

/// Whether the cache's copy of a line serves an operation.
pub(crate) fn serves(cache: &Cache, line: u32, op: &Op) -> bool
    requires { line < all_lines cache.now.sizes }
    ensures value { result ≡ serves_op op.now (copy_in cache.now.copies line) }
    ensures kept { IsDirectMapped cache.now }
{
    match cache.look(line) {
        CopyState::Absent => false,
        CopyState::Shared => op.kind == Kind::Load,
        CopyState::Exclusive => true,
    }
}

/// Whether another line stands in the set of a line.
pub(crate) fn conflicts(cache: &Cache, line: u32) -> bool
    requires { line < all_lines cache.now.sizes }
    ensures { result ≡ is_set_taken cache.now line }
{
    match cache.resident(line) {
        Some(other) => other != line,
        None => false,
    }
}
