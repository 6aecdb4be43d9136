//! What an act does to the ages of its line.

ghost use Rattle.std.specs.Prelude.{◌≡◌, ◌<◌, ◌==◌, ℕ, true, not, ◌&&◌, if◌then◌else◌};
ghost use Rattle.line_map.specs.Sizes.{all_lines, home_of, AreSizes};
ghost use Rattle.op_model.specs.declared.messages.Msg.TheVariants as msg_of;
ghost use Rattle.op_model.specs.Lines.{is_idle as is_idle_wait, LineShare, Outcome, Service};
ghost use Rattle.op_model.specs.Messages.{msg_line, msg_content};
ghost use Rattle.op_model.specs.Shares.{copy_in};
ghost use Rattle.cpu_cache.specs.Effects.{served_of};
ghost use Rattle.dir_header.specs.HomeSides.{header_at};
ghost use Rattle.eager_model.specs.Ages.{age_given as given_in, sent_age, served_age as served_in, with_copy, ages_begun, ages_left, ages_taken};
ghost use Rattle.eager_model.specs.Node.{line_ages as line_of_ages};
ghost use Rattle.eager_home.specs.Ages.{ages_of, as_ages, with_line, AreAgeLists};

use crate::ages::{AgePair, NodeAges};
use cpu_cache::{Cache, Effect, Served};
use dir_header::{Header, HomeSide, Sharers};
use msg_words::Msg;
use node_share::{has_exclusive, has_none, is_idle};

/// The ages of what a node has of a line.
pub(crate) fn line_ages<D: Sharers>(
    cache: &Cache,
    home: &HomeSide<D>,
    ages: &NodeAges,
    line: u32,
) -> AgePair
    requires same { cache.now.sizes ≡ home.now.sizes }
    requires sizes { AreSizes home.now.sizes }
    requires below { line < all_lines home.now.sizes }
    requires lists { AreAgeLists home.now.sizes ages.now }
    ensures { as_ages result ≡ line_of_ages (ages_of home.now.sizes home.now.node cache.now.copies ages.now) line }
{
    let cfg = home.cfg();
    let copy = if has_none(cache, line) {
        0
    } else {
        ages.copy(cfg.set_of(line))
    };
    let memory = if cfg.home_of(line) == home.node() {
        ages.memory(line % cfg.lines())
    } else {
        0
    };
    AgePair { copy, memory }
}

/// The age of the words that a row of a line sends.
pub(crate) fn age_given<D: Sharers>(home: &HomeSide<D>, line: u32, ages: AgePair) -> u64
    requires { line < all_lines home.now.sizes }
    ensures { (share : LineShare) → share.header ≡ header_at home.now line → result ≡ given_in (home.now.node == home_of home.now.sizes line) share (as_ages ages) }
{
    if home.cfg().home_of(line) != home.node() {
        return ages.copy;
    }
    if home.header(line).dirty {
        return ages.copy;
    }
    ages.memory
}

/// The age of the operation that an act serves.
pub(crate) fn served_age(given: u64, copy: u64, served: &Served) -> u64
    ensures { (node place : ℕ) (service : Service) → served.now ≡ served_of node place service → result ≡ served_in given copy service }
{
    match served {
        Served::Nothing => 0,
        Served::Own(_) => copy,
        Served::LoadBy { .. } => given,
    }
}

/// The ages of a line after a message of this age is taken, where a Get is taken at the line's home.
pub(crate) fn taken<D: Sharers>(home: &HomeSide<D>, msg: &Msg, age: u64, ages: AgePair) -> AgePair
    requires below { msg_line msg.now < all_lines home.now.sizes }
    requires here { (line : ℕ) → msg.now ≡ msg_of.Get line → home_of home.now.sizes line ≡ home.now.node }
    ensures { (share : LineShare) → share.header ≡ header_at home.now (msg_line msg.now) → as_ages result ≡ ages_taken (home.now.node == home_of home.now.sizes (msg_line msg.now)) age (msg_content msg.now) share (as_ages ages) }
{
    match *msg {
        Msg::Put { line, .. } => AgePair {
            copy: age,
            memory: if home.cfg().home_of(line) == home.node() {
                age
            } else {
                ages.memory
            },
        },
        Msg::PutX { .. } => AgePair { copy: age, ..ages },
        Msg::Wb { .. } | Msg::ShWb { .. } => AgePair {
            memory: age,
            ..ages
        },
        Msg::Get { line } => lent(home.header(line), ages),
        _ => ages,
    }
}

// The ages of a line at its home after a Get: where the home's own copy is shared, memory takes its words.
fn lent(header: Header, ages: AgePair) -> AgePair
    ensures { as_ages result ≡ (if is_idle_wait header.wait && header.dirty && header.local then record (as_ages ages) { memory = ages.copy } else as_ages ages) }
{
    if is_idle(header) && header.dirty && header.local {
        return AgePair {
            memory: ages.copy,
            ..ages
        };
    }
    ages
}

/// The ages of a line after an operation on it is begun, where it may be done at once, on a copy filled from memory.
pub(crate) fn begun(cache: &Cache, line: u32, done: bool, ages: AgePair) -> AgePair
    requires below { line < all_lines cache.now.sizes }
    requires young { ages.memory < 18446744073709551615 }
    ensures { (row : Outcome) → row.share.copy ≡ copy_in cache.now.copies line → row.done ≡ done → as_ages result ≡ ages_begun row (as_ages ages) }
{
    if !done {
        return ages;
    }
    if has_exclusive(cache, line) {
        return AgePair {
            copy: ages.memory + 1,
            ..ages
        };
    }
    AgePair {
        copy: ages.memory,
        ..ages
    }
}

/// The ages of a line after its copy leaves the cache, which is still there.
pub(crate) fn left<D: Sharers>(
    cache: &Cache,
    home: &HomeSide<D>,
    line: u32,
    ages: AgePair,
) -> AgePair
    requires same { cache.now.sizes ≡ home.now.sizes }
    requires below { line < all_lines home.now.sizes }
    ensures { (share : LineShare) → share.copy ≡ copy_in cache.now.copies line → as_ages result ≡ ages_left (home.now.node == home_of home.now.sizes line) share (as_ages ages) }
{
    if home.cfg().home_of(line) != home.node() {
        return ages;
    }
    if has_exclusive(cache, line) {
        return AgePair {
            memory: ages.copy,
            ..ages
        };
    }
    ages
}

/// The ages of a line after an act are kept. Answers that of its copy, and 0 where it has none.
pub(crate) fn keep<D: Sharers>(
    cache: &Cache,
    home: &HomeSide<D>,
    ages: &mut NodeAges,
    line: u32,
    after: AgePair,
) -> u64
    requires same { cache.now.sizes ≡ home.now.sizes }
    requires sizes { AreSizes home.now.sizes }
    requires below { line < all_lines home.now.sizes }
    requires lists { AreAgeLists home.now.sizes ages.old }
    ensures copy { result ≡ (with_copy (copy_in cache.now.copies line) (as_ages after)).copy }
    ensures lists { ages.new ≡ with_line home.now.sizes home.now.node cache.now.copies line (as_ages after) ages.old }
{
    let cfg = home.cfg();
    if cfg.home_of(line) == home.node() {
        ages.set_memory(line % cfg.lines(), after.memory);
    }
    if has_none(cache, line) {
        return 0;
    }
    ages.set_copy(cfg.set_of(line), after.copy);
    after.copy
}

/// What an act did: its effect, the age of the words that it gave, from which each message sent has its age, and the age of the operation that it served.
#[derive(Clone, Copy)]
pub struct AgedEffect {
    pub effect: Effect,
    pub given: u64,
    pub served: u64,
}

/// The age of a message that an act sent, where the words that it gave have this one. A PutX begins the next age; a message without words has age 0.
pub fn age_sent(given: u64, msg: &Msg) -> u64
    requires { given < 18446744073709551615 }
    ensures { result ≡ sent_age given (msg_content msg.now) }
{
    match msg {
        Msg::PutX { .. } => given + 1,
        Msg::Put { .. } | Msg::ShWb { .. } | Msg::Wb { .. } => given,
        _ => 0,
    }
}
