//! An operation is begun.

ghost use Rattle.std.specs.Prelude.{◌≡◌, ◌≢◌, not, ◌&&◌, ◌+◌, ◌<◌, ℕ, true, false, Some, None, Err, OnErr, IfOk, IfErr};
ghost use Rattle.line_map.specs.Sizes.{all_lines, all_words, home_of, line_of as line_of_word};
ghost use Rattle.op_model.specs.Nodes.{count};
ghost use Rattle.op_model.specs.Lines.{LineShare, nobody_listed, is_idle as is_idle_wait};
ghost use Rattle.op_model.specs.Shares.{line_share, copy_in, Headers};
ghost use Rattle.op_model.specs.OwnPart.{IsOwnLine};
ghost use Rattle.op_model.specs.Operations.{is_load};
ghost use Rattle.op_model.specs.Tables.Processor.{serves, ask as ask_row, begin_at_home as begin_row};
ghost use Rattle.op_model.specs.Events.Node.{permit};
ghost use Rattle.op_model.specs.Programs.{IsProgramOf};
ghost use Rattle.cpu_cache.specs.Effects.{nothing};
ghost use Rattle.cpu_cache.specs.Processors.{next_of};
ghost use Rattle.cpu_cache.specs.Caches.{is_set_taken};
ghost use Rattle.dir_header.specs.HomeSides.{header_at, room_in};
ghost use Rattle.node_share.specs.Parts.{share_of, DoesRow, HasRoom};
ghost use Rattle.node_share.specs.Effects.{Begins};

use cpu_cache::{Cache, Effect, Proc};
use dir_header::{Grantee, HomeSide, Sharers, Wait};
use msg_words::{Msg, Sends};
use node_share::{finish_on, is_full, is_idle, no_effect, nobody, owner, send_invs};
use op_model::{Cause, Kind, Op};

/// The node asks the line's home. A write gives up a shared copy.
pub(crate) fn ask(
    at: u32,
    proc: &mut Proc,
    cache: &mut Cache,
    op: &Op,
    line: u32,
    out: &mut Sends,
) -> Effect
    requires next { next_of proc.old ≡ Some op.now }
    requires free { proc.old.want ≡ None }
    requires below { line < all_lines cache.old.sizes }
    requires unserved { serves op.now (copy_in cache.old.copies line) ≡ false }
    requires room { HasRoom out.old 1 }
    ensures row { (node : ℕ) (headers : Headers) → home_of cache.old.sizes line ≢ node → DoesRow cache.old.sizes node (share_of proc.old cache.old.copies headers) (share_of proc.new cache.new.copies headers) out.old out.new line (ask_row at op.now) }
    ensures effect { result ≡ nothing }
    ensures cache { cache.new.sizes ≡ cache.old.sizes }
    ensures proc { proc.new.program ≡ proc.old.program }
{
    let _kept = cache.cfg();
    proc.begin();
    if op.kind == Kind::Load {
        out.push(at, Msg::Get { line });
        return no_effect();
    }
    cache.drop_line(line);
    out.push(at, Msg::GetX { line });
    no_effect()
}

/// Whether an operation that no copy serves can be begun at its line's home, or the first cause why not: the line is pending, or would have to be where no more lines may.
pub(crate) fn can_begin_at_home<D: Sharers>(
    home: &HomeSide<D>,
    line: u32,
    op: &Op,
) -> Result<(), Cause>
    requires { home_of home.now.sizes line ≡ home.now.node }
    ensures { (node : ℕ) (share : LineShare) → share.header ≡ header_at home.now line → result ≡ permit (begin_row node (room_in home.now) op.now share) }
{
    if !is_idle(home.header(line)) {
        return Err(Cause::HeldPending);
    }
    if !has_to_wait(home, line, op) {
        return Ok(());
    }
    if is_full(home) {
        return Err(Cause::HeldBudget);
    }
    Ok(())
}

// Whether an operation has to wait: for a dirty line's owner, or as a write for all listed nodes.
fn has_to_wait<D: Sharers>(home: &HomeSide<D>, line: u32, op: &Op) -> bool
    requires { home_of home.now.sizes line ≡ home.now.node }
    ensures { result ≡ (not (not (header_at home.now line).dirty && is_load op.now.kind) && not (not (header_at home.now line).dirty && nobody_listed (header_at home.now line).list)) }
{
    if home.header(line).dirty {
        return true;
    }
    if op.kind == Kind::Load {
        return false;
    }
    !nobody(home, line)
}

/// The line is at home: the operation is done at once, or the line waits for its owner or for acknowledgements.
pub(crate) fn begin_at_home<D: Sharers>(
    node: u32,
    proc: &mut Proc,
    cache: &mut Cache,
    home: &mut HomeSide<D>,
    op: &Op,
    line: u32,
    out: &mut Sends,
) -> Result<Effect, Cause>
    requires same { cache.old.sizes ≡ home.old.sizes }
    requires node { home.old.node ≡ node }
    requires next { next_of proc.old ≡ Some op.now }
    requires free { proc.old.want ≡ None }
    requires word { op.now.word < all_words cache.old.sizes }
    requires line { line ≡ line_of_word cache.old.sizes op.now.word }
    requires below { line < all_lines home.old.sizes }
    requires here { home_of home.old.sizes line ≡ node }
    requires program { IsProgramOf home.old.sizes node proc.old.program }
    requires unserved { serves op.now (copy_in cache.old.copies line) ≡ false }
    requires alone { is_set_taken cache.old line ≡ false }
    requires own { is_idle_wait (header_at home.old line).wait ≡ true → IsOwnLine node (line_share home.old.sizes (share_of proc.old cache.old.copies home.old.headers) line) }
    requires room { HasRoom out.old (home.old.sizes.nodes + 1) }
    ensures done { IfOk result (λ effect. Begins home.old.sizes node proc.old.program proc.old.place line (begin_row node (room_in home.old) op.now (line_share home.old.sizes (share_of proc.old cache.old.copies home.old.headers) line)) (share_of proc.old cache.old.copies home.old.headers) (share_of proc.new cache.new.copies home.new.headers) out.old out.new effect) }
    ensures refused { IfErr result (λ cause. begin_row node (room_in home.old) op.now (line_share home.old.sizes (share_of proc.old cache.old.copies home.old.headers) line) ≡ Err cause) }
    ensures home { home.new ≡ record home.old { dir = home.new.dir; headers = home.new.headers } }
    ensures cache { cache.new.sizes ≡ cache.old.sizes }
    ensures proc { proc.new.program ≡ proc.old.program }
    ensures err_home { OnErr result (home.new ≡ home.old) }
    ensures err_cache { OnErr result (cache.new ≡ cache.old) }
    ensures err_proc { OnErr result (proc.new ≡ proc.old) }
    ensures err_out { OnErr result (out.new ≡ out.old) }
{
    can_begin_at_home(home, line, op)?;
    let _kept = cache.cfg();
    let load = op.kind == Kind::Load;
    if home.header(line).dirty {
        let owner = owner(home, line);
        if load {
            let _ = home.make_pending(line, Wait::ForwardGet(node));
            proc.begin();
            out.push(owner, Msg::FwdGet { line, req: node });
            return Ok(no_effect());
        }
        let _ = home.make_pending(line, Wait::ForwardGetX(node));
        proc.begin();
        out.push(owner, Msg::FwdGetX { line, req: node });
        return Ok(no_effect());
    }
    let body = home.memory(line);
    if load {
        home.set_local(line, true);
        return Ok(finish_on(proc, cache, op, body));
    }
    if nobody(home, line) {
        home.set_local(line, true);
        home.set_dirty(line, true);
        return Ok(finish_on(proc, cache, op, body));
    }
    let _ = home.make_pending(line, Wait::Invalidate(Grantee::Me));
    proc.begin();
    cache.drop_line(line);
    home.set_local(line, false);
    send_invs(home, line, out);
    Ok(no_effect())
}
