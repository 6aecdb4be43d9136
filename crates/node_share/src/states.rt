//! What handlers ask of a cache.

ghost use Rattle.std.specs.Prelude.{◌≡◌, ◌<◌};
ghost use Rattle.line_map.specs.Sizes.{all_lines};
ghost use Rattle.op_model.specs.Lines.{is_exclusive, is_empty};
ghost use Rattle.op_model.specs.Shares.{copy_in};
ghost use Rattle.cpu_cache.specs.Caches.{IsDirectMapped};

use cpu_cache::{Cache, CopyState};

/// Whether a cache has an exclusive copy of a line.
pub fn has_exclusive(cache: &Cache, line: u32) -> bool
    requires { line < all_lines cache.now.sizes }
    ensures value { result ≡ is_exclusive (copy_in cache.now.copies line) }
    ensures kept { IsDirectMapped cache.now }
{
    matches!(cache.look(line), CopyState::Exclusive)
}

/// Whether a cache has no copy of a line.
pub fn has_none(cache: &Cache, line: u32) -> bool
    requires { line < all_lines cache.now.sizes }
    ensures value { result ≡ is_empty (copy_in cache.now.copies line) }
    ensures kept { IsDirectMapped cache.now }
{
    matches!(cache.look(line), CopyState::Absent)
}
