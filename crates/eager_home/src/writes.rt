//! An issue.

ghost use Rattle.std.specs.Prelude.{◌≡◌, ℕ, ◌+◌, ◌<◌, ◌&&◌, ◌==◌, [], true, false, Some, None, Ok, Err, OnErr, IfOk, IfErr, IfSome};
ghost use Rattle.line_map.specs.Sizes.{home_of, line_of as line_of_word};
ghost use Rattle.op_model.specs.OwnPart.{IsOwnLine};
ghost use Rattle.op_model.specs.Shares.{Unlinked, line_share};
ghost use Rattle.op_model.specs.Events.Node.{IssueNext, permit};
ghost use Rattle.op_model.specs.Lines.{is_idle as is_idle_wait};
ghost use Rattle.op_model.specs.Programs.{IsProgramOf};
ghost use Rattle.eager_model.specs.Node.{local};
ghost use Rattle.eager_model.specs.Rows.{writes_shared};
ghost use Rattle.cpu_cache.specs.Processors.{next_of};
ghost use Rattle.dir_header.specs.HomeSides.{header_at};
ghost use Rattle.node_share.specs.Parts.{share_of, HasRoom};
ghost use Rattle.node_share.specs.Effects.{Acts};

use cpu_cache::{Cache, Effect, Proc};
use dir_header::{Grantee, HomeSide, Sharers, Wait};
use msg_words::Sends;
use node_share::{finish_on, line_of, nobody, send_invs};
use op_model::{Cause, Kind, Op};
use pi_handlers::{can_issue as can_issue_delayed, issue as issue_delayed};

/// Whether the next operation can be begun, or the first cause why not. The causes are those of the delayed core, since a write that drains its line takes a place in the budget as one that waits for it.
pub fn can_issue<D: Sharers>(
    node: u32,
    proc: &Proc,
    cache: &Cache,
    home: &HomeSide<D>,
) -> Result<(), Cause>
    requires same { cache.now.sizes ≡ home.now.sizes }
    requires node { home.now.node ≡ node }
    requires unlinked { home.now.charge ≡ Unlinked }
    requires program { IsProgramOf home.now.sizes node proc.now.program }
    ensures { result ≡ permit (local home.now.sizes node proc.now.program (share_of proc.now cache.now.copies home.now.headers) IssueNext) }
{
    can_issue_delayed(node, proc, cache, home)
}

/// Issue: the next operation is begun. A write to a clean line of this home that other nodes share is done at once, and the line drains.
pub fn issue<D: Sharers>(
    node: u32,
    proc: &mut Proc,
    cache: &mut Cache,
    home: &mut HomeSide<D>,
    out: &mut Sends,
) -> Result<Effect, Cause>
    requires same { cache.old.sizes ≡ home.old.sizes }
    requires node { home.old.node ≡ node }
    requires unlinked { home.old.charge ≡ Unlinked }
    requires program { IsProgramOf home.old.sizes node proc.old.program }
    requires own { (line : ℕ) → home_of home.old.sizes line ≡ node → is_idle_wait (header_at home.old line).wait ≡ true → IsOwnLine node (line_share home.old.sizes (share_of proc.old cache.old.copies home.old.headers) line) }
    requires room { HasRoom out.old (home.old.sizes.nodes + 1) }
    ensures acts { IfOk result (λ effect. Acts node proc.old.program proc.old.place [] (local home.old.sizes node proc.old.program (share_of proc.old cache.old.copies home.old.headers) IssueNext) (share_of proc.new cache.new.copies home.new.headers) out.old out.new effect) }
    ensures refused { IfErr result (λ cause. local home.old.sizes node proc.old.program (share_of proc.old cache.old.copies home.old.headers) IssueNext ≡ Err cause) }
    ensures home { home.new ≡ record home.old { dir = home.new.dir; headers = home.new.headers } }
    ensures cache { cache.new.sizes ≡ cache.old.sizes }
    ensures proc { proc.new.program ≡ proc.old.program }
    ensures err_home { OnErr result (home.new ≡ home.old) }
    ensures err_cache { OnErr result (cache.new ≡ cache.old) }
    ensures err_proc { OnErr result (proc.new ≡ proc.old) }
    ensures err_out { OnErr result (out.new ≡ out.old) }
{
    can_issue(node, proc, cache, home)?;
    let Some(op) = shared_write(node, proc, home) else {
        return issue_delayed(node, proc, cache, home, out);
    };
    Ok(write_and_drain(node, proc, cache, home, &op, out))
}

// The next operation where it writes to a clean line of this home that some node shares.
fn shared_write<D: Sharers>(node: u32, proc: &Proc, home: &HomeSide<D>) -> Option<Op>
    requires node { home.now.node ≡ node }
    requires program { IsProgramOf home.now.sizes node proc.now.program }
    ensures some { IfSome result (λ op. (next_of proc.now ≡ Some op) × (home_of home.now.sizes (line_of_word home.now.sizes op.word) ≡ node) × (writes_shared op (header_at home.now (line_of_word home.now.sizes op.word)) ≡ true)) }
    ensures none { result ≡ None → (op : Op) → next_of proc.now ≡ Some op → ((node == home_of home.now.sizes (line_of_word home.now.sizes op.word)) && writes_shared op (header_at home.now (line_of_word home.now.sizes op.word))) ≡ false }
{
    let op = proc.next_op()?;
    let cfg = home.cfg();
    let line = line_of(cfg, &op);
    if cfg.home_of(line) != node {
        return None;
    }
    if op.kind == Kind::Load || home.header(line).dirty || nobody(home, line) {
        return None;
    }
    Some(op)
}

// The home takes an exclusive copy of the line from memory and writes to it. Each listed node is called.
fn write_and_drain<D: Sharers>(
    node: u32,
    proc: &mut Proc,
    cache: &mut Cache,
    home: &mut HomeSide<D>,
    op: &Op,
    out: &mut Sends,
) -> Effect
    requires same { cache.old.sizes ≡ home.old.sizes }
    requires node { home.old.node ≡ node }
    requires program { IsProgramOf home.old.sizes node proc.old.program }
    requires next { next_of proc.old ≡ Some op.now }
    requires here { home_of home.old.sizes (line_of_word home.old.sizes op.now.word) ≡ node }
    requires shared { writes_shared op.now (header_at home.old (line_of_word home.old.sizes op.now.word)) ≡ true }
    requires allowed { Ok tt ≡ permit (local home.old.sizes node proc.old.program (share_of proc.old cache.old.copies home.old.headers) IssueNext) }
    requires room { HasRoom out.old (home.old.sizes.nodes + 1) }
    ensures acts { Acts node proc.old.program proc.old.place [] (local home.old.sizes node proc.old.program (share_of proc.old cache.old.copies home.old.headers) IssueNext) (share_of proc.new cache.new.copies home.new.headers) out.old out.new result }
    ensures home { home.new ≡ record home.old { dir = home.new.dir; headers = home.new.headers } }
    ensures cache { cache.new.sizes ≡ cache.old.sizes }
    ensures proc { proc.new.program ≡ proc.old.program }
{
    let line = line_of(home.cfg(), op);
    let body = home.memory(line);
    let _ = home.make_pending(line, Wait::Invalidate(Grantee::Node(node)));
    home.set_local(line, true);
    home.set_dirty(line, true);
    send_invs(home, line, out);
    finish_on(proc, cache, op, body)
}
