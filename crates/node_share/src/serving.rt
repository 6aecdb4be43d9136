//! Operations on copies of their lines.

ghost use Rattle.std.specs.Prelude.{◌≡◌, ◌<◌, suc, None, Some, true, false, if◌then◌else◌, length};
ghost use Rattle.line_map.specs.Sizes.{all_lines, all_words, line_of as line_of_word};
ghost use Rattle.op_model.specs.Operations.{is_load, entry_of};
ghost use Rattle.op_model.specs.Lines.{Shared as SharedCopy, Exclusive as ExclusiveCopy, words_of};
ghost use Rattle.op_model.specs.Tables.Processor.{serves, done_on};
ghost use Rattle.op_model.specs.Shares.{copy_in};
ghost use Rattle.cpu_cache.specs.Effects.{nothing, own_effect};
ghost use Rattle.cpu_cache.specs.Caches.{is_set_taken, with_copy, IsDirectMapped};
ghost use Rattle.cpu_cache.specs.Processors.{next_of};
ghost use Rattle.node_share.specs.Parts.{copy_done};

use cpu_cache::{Cache, Effect, Proc, Served};
use line_map::{Body, Machine};
use op_model::{Entry, Kind, Op};

/// The line that an operation names.
pub fn line_of(cfg: Machine, op: &Op) -> u32
    requires { op.now.word < all_words cfg }
    ensures value { result ≡ line_of_word cfg op.now.word }
    ensures below { result < all_lines cfg }
{
    cfg.line_of(cfg.addr_of(op.word))
}

/// The entry of a load that finds these words in its line.
pub fn load_on(cfg: Machine, op: &Op, body: &Body) -> Entry
    requires word { op.now.word < all_words cfg }
    requires load { is_load op.now.kind ≡ true }
    requires width { length body.now ≡ cfg.words }
    ensures { result ≡ entry_of op.now.node op.now.index op.now body.now }
{
    Entry {
        node: op.node,
        index: op.index,
        kind: op.kind,
        word: op.word,
        value: body.get(cfg.word_of(cfg.addr_of(op.word))),
        old: 0,
    }
}

/// Does an operation on a copy that serves it, and answers its entry.
pub fn perform(cache: &mut Cache, op: &Op) -> Entry
    requires word { op.now.word < all_words cache.old.sizes }
    requires served { serves op.now (copy_in cache.old.copies (line_of_word cache.old.sizes op.now.word)) ≡ true }
    ensures entry { result ≡ entry_of op.now.node op.now.index op.now (words_of (copy_in cache.old.copies (line_of_word cache.old.sizes op.now.word))) }
    ensures done { let line = line_of_word cache.old.sizes op.now.word in cache.new ≡ with_copy cache.old line (done_on op.now (copy_in cache.old.copies line)) }
{
    let cfg = cache.cfg();
    let addr = cfg.addr_of(op.word);
    if op.kind != Kind::Load {
        return cache.perform(addr, op);
    }
    load_on(cfg, op, &cache.body(cfg.line_of(addr)))
}

// Takes a copy of a line with these words: for a load a shared one, for a write an exclusive one in place of a shared one.
fn take_copy(cache: &mut Cache, op: &Op, line: u32, body: Body)
    requires mapped { IsDirectMapped cache.old }
    requires below { line < all_lines cache.old.sizes }
    requires alone { is_set_taken cache.old line ≡ false }
    requires unserved { serves op.now (copy_in cache.old.copies line) ≡ false }
    requires width { length body ≡ cache.old.sizes.words }
    ensures { cache.new ≡ with_copy cache.old line (if is_load op.now.kind then SharedCopy body else ExclusiveCopy body) }
{
    if op.kind == Kind::Load {
        cache.fill_s(line, body);
    } else {
        cache.drop_line(line);
        cache.fill_e(line, body);
    }
}

/// Takes a copy of an operation's line with these words, does the operation on it, and answers its entry. A write takes an exclusive copy, in place of a shared one, a load a shared one.
pub fn do_on(cache: &mut Cache, op: &Op, body: Body) -> Entry
    requires word { op.now.word < all_words cache.old.sizes }
    requires alone { is_set_taken cache.old (line_of_word cache.old.sizes op.now.word) ≡ false }
    requires unserved { serves op.now (copy_in cache.old.copies (line_of_word cache.old.sizes op.now.word)) ≡ false }
    requires width { length body ≡ cache.old.sizes.words }
    ensures entry { result ≡ entry_of op.now.node op.now.index op.now body }
    ensures done { cache.new ≡ with_copy cache.old (line_of_word cache.old.sizes op.now.word) (copy_done op.now body) }
{
    let line = line_of(cache.cfg(), op);
    take_copy(cache, op, line, body);
    perform(cache, op)
}

/// Takes a copy of the line of a processor's next operation with these words, and does the operation on it.
pub fn finish_on(proc: &mut Proc, cache: &mut Cache, op: &Op, body: Body) -> Effect
    requires next { next_of proc.old ≡ Some op.now }
    requires word { op.now.word < all_words cache.old.sizes }
    requires alone { is_set_taken cache.old (line_of_word cache.old.sizes op.now.word) ≡ false }
    requires unserved { serves op.now (copy_in cache.old.copies (line_of_word cache.old.sizes op.now.word)) ≡ false }
    requires width { length body ≡ cache.old.sizes.words }
    ensures effect { result ≡ own_effect (entry_of op.now.node op.now.index op.now body) }
    ensures proc { proc.new ≡ record proc.old { place = suc proc.old.place; want = None } }
    ensures cache { cache.new ≡ with_copy cache.old (line_of_word cache.old.sizes op.now.word) (copy_done op.now body) }
{
    let entry = do_on(cache, op, body);
    proc.finish();
    Effect {
        served: Served::Own(entry),
        done: Some(entry),
    }
}

/// Nothing is served and nothing done.
pub fn no_effect() -> Effect
    ensures { result ≡ nothing }
{
    Effect {
        served: Served::Nothing,
        done: None,
    }
}
