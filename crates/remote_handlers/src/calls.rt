//! A home calls a shared copy in.

ghost use Rattle.std.specs.Prelude.{◌≡◌, ◌≢◌, ◌<◌, ◌==◌, ◌&&◌, ℕ, true, false, if◌then◌else◌, Some};
ghost use Rattle.line_map.specs.Sizes.{all_lines, all_words, home_of, line_of as line_of_word};
ghost use Rattle.op_model.specs.declared.state.Want.{Want as AWant};
ghost use Rattle.op_model.specs.Lines.{without_shared, marked_load};
ghost use Rattle.op_model.specs.Shares.{want_on, want_after, copy_in, Headers};
ghost use Rattle.op_model.specs.Tables.Remote.{on_inv as inv_row};
ghost use Rattle.cpu_cache.specs.Caches.{with_copy};
ghost use Rattle.node_share.specs.Parts.{share_of, DoesRow, HasRoom};

use cpu_cache::{Cache, CopyState, Proc};
use line_map::Machine;
use msg_words::{Msg, Sends};
use node_share::line_of;
use op_model::Kind;

/// Inv: a shared copy goes, and a load that waits for the line is marked. The home is told.
pub fn on_inv(cfg: &Machine, proc: &mut Proc, cache: &mut Cache, line: u32, out: &mut Sends)
    requires same { cache.old.sizes ≡ cfg.now }
    requires below { line < all_lines cfg.now }
    requires words { (want : AWant) → proc.old.want ≡ Some want → want.op.word < all_words cfg.now }
    requires room { HasRoom out.old 1 }
    ensures row { (node : ℕ) (headers : Headers) → home_of cfg.now line ≢ node → DoesRow cfg.now node (share_of proc.old cache.old.copies headers) (share_of proc.new cache.new.copies headers) out.old out.new line (inv_row (home_of cfg.now line)) }
    ensures cache { cache.new.sizes ≡ cache.old.sizes }
    ensures proc { proc.new.program ≡ proc.old.program }
{
    drop_shared(cache, line);
    mark_load(cfg, proc, line);
    out.push(cfg.home_of(line), Msg::InvAck { line });
}

// A shared copy goes, any other stays.
fn drop_shared(cache: &mut Cache, line: u32)
    requires { line < all_lines cache.old.sizes }
    ensures { cache.new ≡ with_copy cache.old line (without_shared (copy_in cache.old.copies line)) }
{
    match cache.look(line) {
        CopyState::Shared => cache.drop_line(line),
        CopyState::Absent => {}
        CopyState::Exclusive => {}
    }
}

// A load that waits for the line is marked.
fn mark_load(cfg: &Machine, proc: &mut Proc, line: u32)
    requires { (want : AWant) → proc.old.want ≡ Some want → want.op.word < all_words cfg.now }
    ensures { proc.new ≡ record proc.old { want = want_after cfg.now proc.old.want line (marked_load (want_on cfg.now proc.old.want line)) } }
{
    if let Some(want) = proc.want() {
        if line_of(*cfg, &want.op) == line {
            if want.op.kind == Kind::Load {
                proc.mark();
            }
        }
    }
}
