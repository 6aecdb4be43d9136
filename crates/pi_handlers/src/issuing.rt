//! An issue.

ghost use Rattle.std.specs.Prelude.{◌≡◌, ℕ, ◌+◌, ◌<◌, [], true, false, Some, None, Err, OnErr, IfOk, IfErr};
ghost use Rattle.line_map.specs.Sizes.{home_of, line_of as line_of_word};
ghost use Rattle.op_model.specs.OwnPart.{IsOwnLine};
ghost use Rattle.op_model.specs.Shares.{Charge, copy_in, Headers, line_share};
ghost use Rattle.op_model.specs.Events.Node.{IssueNext, local, permit};
ghost use Rattle.op_model.specs.Tables.Processor.{serves as serves_op};
ghost use Rattle.op_model.specs.Programs.{IsProgramOf};
ghost use Rattle.cpu_cache.specs.Caches.{is_set_taken};
ghost use Rattle.cpu_cache.specs.Processors.{next_of};
ghost use Rattle.dir_header.specs.HomeSides.{header_at};
ghost use Rattle.op_model.specs.Lines.{is_idle as is_idle_wait};
ghost use Rattle.node_share.specs.Parts.{share_of, HasRoom};
ghost use Rattle.node_share.specs.Effects.{Acts};

use crate::beginning::{ask, begin_at_home, can_begin_at_home};
use crate::serving::{conflicts, serves};
use cpu_cache::{Cache, Effect, Proc};
use dir_header::{HomeSide, Sharers};
use msg_words::Sends;
use node_share::line_of;
use op_model::{Cause, Op};

/// Whether the next operation can be begun, or the first cause why not: there is none, one waits, a copy serves it, another line stands in its set, or its line is at home and pending, or would have to be where no more lines may.
pub fn can_issue<D: Sharers>(
    node: u32,
    proc: &Proc,
    cache: &Cache,
    home: &HomeSide<D>,
) -> Result<(), Cause>
    requires same { cache.now.sizes ≡ home.now.sizes }
    requires node { home.now.node ≡ node }
    requires program { IsProgramOf home.now.sizes node proc.now.program }
    ensures { result ≡ permit (local home.now.charge home.now.sizes node proc.now.program (share_of proc.now cache.now.copies home.now.headers) IssueNext) }
{
    let op = next_issue(proc, cache)?;
    let line = line_of(cache.cfg(), &op);
    if cache.cfg().home_of(line) == node {
        return can_begin_at_home(home, line, &op);
    }
    Ok(())
}

/// Issue: the next operation is begun, and where its line is at home, clean and listed by nobody who has to give it up, it is done at once.
pub fn issue<D: Sharers>(
    node: u32,
    proc: &mut Proc,
    cache: &mut Cache,
    home: &mut HomeSide<D>,
    out: &mut Sends,
) -> Result<Effect, Cause>
    requires same { cache.old.sizes ≡ home.old.sizes }
    requires node { home.old.node ≡ node }
    requires program { IsProgramOf home.old.sizes node proc.old.program }
    requires own { (line : ℕ) → home_of home.old.sizes line ≡ node → is_idle_wait (header_at home.old line).wait ≡ true → IsOwnLine node (line_share home.old.sizes (share_of proc.old cache.old.copies home.old.headers) line) }
    requires room { HasRoom out.old (home.old.sizes.nodes + 1) }
    ensures acts { IfOk result (λ effect. Acts node proc.old.program proc.old.place [] (local home.old.charge home.old.sizes node proc.old.program (share_of proc.old cache.old.copies home.old.headers) IssueNext) (share_of proc.new cache.new.copies home.new.headers) out.old out.new effect) }
    ensures refused { IfErr result (λ cause. local home.old.charge home.old.sizes node proc.old.program (share_of proc.old cache.old.copies home.old.headers) IssueNext ≡ Err cause) }
    ensures home { home.new ≡ record home.old { dir = home.new.dir; headers = home.new.headers } }
    ensures cache { cache.new.sizes ≡ cache.old.sizes }
    ensures proc { proc.new.program ≡ proc.old.program }
    ensures err_home { OnErr result (home.new ≡ home.old) }
    ensures err_cache { OnErr result (cache.new ≡ cache.old) }
    ensures err_proc { OnErr result (proc.new ≡ proc.old) }
    ensures err_out { OnErr result (out.new ≡ out.old) }
{
    let op = next_issue(proc, cache)?;
    let line = line_of(cache.cfg(), &op);
    let at = cache.cfg().home_of(line);
    if at == node {
        return begin_at_home(node, proc, cache, home, &op, line, out);
    }
    Ok(ask(at, proc, cache, &op, line, out))
}

// The next operation where it can be begun as far as the cache goes, or the first cause why not.
fn next_issue(proc: &Proc, cache: &Cache) -> Result<Op, Cause>
    requires { (node : ℕ) × IsProgramOf cache.now.sizes node proc.now.program }
    ensures found { IfOk result (λ op. (next_of proc.now ≡ Some op) × (proc.now.want ≡ None) × (serves_op op (copy_in cache.now.copies (line_of_word cache.now.sizes op.word)) ≡ false) × (is_set_taken cache.now (line_of_word cache.now.sizes op.word) ≡ false)) }
    ensures refused { IfErr result (λ cause. (charge : Charge) (node : ℕ) (headers : Headers) → local charge cache.now.sizes node proc.now.program (share_of proc.now cache.now.copies headers) IssueNext ≡ Err cause) }
{
    let Some(op) = proc.next_op() else {
        return Err(Cause::NoOp);
    };
    if proc.want().is_some() {
        return Err(Cause::Outstanding);
    }
    let line = line_of(cache.cfg(), &op);
    if serves(cache, line, &op) {
        return Err(Cause::HitFirst);
    }
    if conflicts(cache, line) {
        return Err(Cause::Conflict);
    }
    Ok(op)
}
