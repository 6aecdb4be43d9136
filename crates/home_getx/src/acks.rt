//! An acknowledgement at the home of its line.

ghost use Rattle.std.specs.Prelude.{◌≡◌, ◌<◌, true, [], ℕ};
ghost use Rattle.line_map.specs.Sizes.{home_of};
ghost use Rattle.op_model.specs.Nodes.{listed};
ghost use Rattle.op_model.specs.OwnPart.{IsOwnPart};
ghost use Rattle.op_model.specs.Tables.Home.{on_inv_ack as inv_ack_row};
ghost use Rattle.op_model.specs.Tables.Remote.{is_invalidate};
ghost use Rattle.op_model.specs.Programs.{IsProgramOf};
ghost use Rattle.cpu_cache.specs.Effects.{effect_of};
ghost use Rattle.dir_header.specs.HomeSides.{header_at};
ghost use Rattle.node_share.specs.Parts.{share_of, row_at, DoesRow, HasRoom};

use cpu_cache::{Cache, Effect, Proc};
use dir_header::{Grantee, HomeSide, Sharers, Wait};
use msg_words::{Msg, Sends};
use node_share::{finish_on, grantee, no_effect};

/// InvAck: the sender is listed no more, and the last acknowledgement grants the line. Where the home has waited for it, the home's write is done.
pub fn on_inv_ack<D: Sharers>(
    home: &mut HomeSide<D>,
    proc: &mut Proc,
    cache: &mut Cache,
    src: u32,
    line: u32,
    out: &mut Sends,
) -> Effect
    requires same { cache.old.sizes ≡ home.old.sizes }
    requires line { home_of home.old.sizes line ≡ home.old.node }
    requires src { src < home.old.sizes.nodes }
    requires waits { is_invalidate (header_at home.old line).wait ≡ true }
    requires listed { listed (header_at home.old line).list src ≡ true }
    requires grantee { (node : ℕ) → (header_at home.old line).wait ≡ Wait.Invalidate (Grantee.Node node) → node < home.old.sizes.nodes }
    requires own { IsOwnPart home.old.charge home.old.sizes home.old.node proc.old.program (share_of proc.old cache.old.copies home.old.headers) }
    requires program { IsProgramOf home.old.sizes home.old.node proc.old.program }
    requires room { HasRoom out.old 1 }
    ensures row { DoesRow home.old.sizes home.old.node (share_of proc.old cache.old.copies home.old.headers) (share_of proc.new cache.new.copies home.new.headers) out.old out.new line (inv_ack_row src) }
    ensures effect { result ≡ effect_of home.old.node proc.old.program proc.old.place [] (row_at home.old.sizes home.old.node (share_of proc.old cache.old.copies home.old.headers) line (inv_ack_row src)) }
    ensures home { home.new ≡ record home.old { dir = home.new.dir; headers = home.new.headers } }
    ensures cache { cache.new.sizes ≡ cache.old.sizes }
    ensures proc { proc.new.program ≡ proc.old.program }
{
    // The cache keeps what it holds: only the last arm changes it.
    let _kept = cache.cfg();
    let header = home.header(line);
    home.unlist(line, src);
    if header.acks > 1 {
        return no_effect();
    }
    home.end_pending(line);
    match grantee(header) {
        Grantee::Nobody => no_effect(),
        Grantee::Node(node) => {
            home.set_dirty(line, true);
            home.list_only(line, Some(node));
            out.push(
                node,
                Msg::PutX {
                    line,
                    body: home.memory(line),
                },
            );
            no_effect()
        }
        Grantee::Me => {
            home.set_dirty(line, true);
            home.set_local(line, true);
            let op = proc.want().unwrap().op;
            finish_on(proc, cache, &op, home.memory(line))
        }
    }
}
