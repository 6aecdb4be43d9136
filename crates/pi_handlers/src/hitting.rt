//! A hit.

ghost use Rattle.std.specs.Prelude.{◌≡◌, ℕ, [], true, Some, None, Err, OnErr, IfOk, IfErr, MatchResult};
ghost use Rattle.line_map.specs.Sizes.{line_of as line_of_word};
ghost use Rattle.op_model.specs.Shares.{Charge, copy_in, Headers};
ghost use Rattle.op_model.specs.Events.Node.{HitNext, local, permit};
ghost use Rattle.op_model.specs.Tables.Processor.{serves as serves_op};
ghost use Rattle.op_model.specs.Programs.{IsProgramOf};
ghost use Rattle.cpu_cache.specs.Processors.{next_of};
ghost use Rattle.msg_words.specs.SendList.{SendList};
ghost use Rattle.node_share.specs.Parts.{share_of, AreHeaders};
ghost use Rattle.node_share.specs.Effects.{Acts};

use crate::serving::serves;
use cpu_cache::{Cache, Effect, Proc, Served};
use node_share::{line_of, perform};
use op_model::{Cause, Op};

/// Whether the next operation is a hit, or the first cause why not: there is none, one waits, or no copy serves it.
pub fn can_hit(proc: &Proc, cache: &Cache) -> Result<(), Cause>
    requires { (node : ℕ) × IsProgramOf cache.now.sizes node proc.now.program }
    ensures { (charge : Charge) (node : ℕ) (headers : Headers) → result ≡ permit (local charge cache.now.sizes node proc.now.program (share_of proc.now cache.now.copies headers) HitNext) }
{
    next_hit(proc, cache)?;
    Ok(())
}

/// Hit: the next operation is done on the copy.
pub fn hit(proc: &mut Proc, cache: &mut Cache) -> Result<Effect, Cause>
    requires { (node : ℕ) × IsProgramOf cache.old.sizes node proc.old.program }
    ensures acts { (charge : Charge) (node : ℕ) (headers : Headers) → IsProgramOf cache.old.sizes node proc.old.program → AreHeaders cache.old.sizes node headers → MatchResult result
        (λ effect. (out : SendList) → Acts node proc.old.program proc.old.place [] (local charge cache.old.sizes node proc.old.program (share_of proc.old cache.old.copies headers) HitNext) (share_of proc.new cache.new.copies headers) out out effect)
        (λ cause. local charge cache.old.sizes node proc.old.program (share_of proc.old cache.old.copies headers) HitNext ≡ Err cause) }
    ensures proc { proc.new.program ≡ proc.old.program }
    ensures cache { cache.new.sizes ≡ cache.old.sizes }
    ensures err_proc { OnErr result (proc.new ≡ proc.old) }
    ensures err_cache { OnErr result (cache.new ≡ cache.old) }
{
    let op = next_hit(proc, cache)?;
    let entry = perform(cache, &op);
    proc.finish();
    Ok(Effect {
        served: Served::Own(entry),
        done: Some(entry),
    })
}

// The next operation where a copy serves it, or the first cause why none does.
fn next_hit(proc: &Proc, cache: &Cache) -> Result<Op, Cause>
    requires { (node : ℕ) × IsProgramOf cache.now.sizes node proc.now.program }
    ensures found { IfOk result (λ op. (next_of proc.now ≡ Some op) × (proc.now.want ≡ None) × (serves_op op (copy_in cache.now.copies (line_of_word cache.now.sizes op.word)) ≡ true)) }
    ensures refused { IfErr result (λ cause. (charge : Charge) (node : ℕ) (headers : Headers) → local charge cache.now.sizes node proc.now.program (share_of proc.now cache.now.copies headers) HitNext ≡ Err cause) }
{
    let Some(op) = proc.next_op() else {
        return Err(Cause::NoOp);
    };
    if proc.want().is_some() {
        return Err(Cause::Outstanding);
    }
    let line = line_of(cache.cfg(), &op);
    if !serves(cache, line, &op) {
        return Err(Cause::Miss);
    }
    Ok(op)
}
