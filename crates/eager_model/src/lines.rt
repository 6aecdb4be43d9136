//! One line of the machine, seen alone: what holds of it at each moment, whether it drains or not, and that every row of the tables keeps it.
//!
//! What holds is `IsEagerGood` of `specs/Good.antt`. A line that doesn't drain is as in the delayed core, and its words are newest. While one drains its grantee has the newest words, and the copies that are called in have older ones.

ghost use Rattle.std.specs.Prelude.{◌≡◌, ◌≢◌, ℕ, Bool, true, false, not, List, ◌∷◌, None, Ok};
ghost use Rattle.eager_model.specs.Types.{Class, Op};
ghost use Rattle.line_invariant.specs.Types.{EvictKind};
ghost use Rattle.op_model.specs.Operations.{Words, is_load};
ghost use Rattle.op_model.specs.Messages.{Content, Put};
ghost use Rattle.op_model.specs.Lines.{Absent, LineShare, Room, NoService, Outcome, is_empty};
ghost use Rattle.op_model.specs.Tables.Processor.{serves, evict};
ghost use Rattle.op_model.specs.Tables.Processor as delayed_processor;
ghost use Rattle.op_model.specs.Tables.Remote.{is_invalidate};
ghost use Rattle.op_model.specs.Tables.Remote as delayed;
ghost use Rattle.line_invariant.specs.Line.{share_of};
ghost use Rattle.line_invariant.specs.Rows.{wanting, IsServedFor, IsOwnServed, IsOwnWant, IsWantKept, EndsRight};
ghost use Rattle.eager_model.specs.Rows.{asks_shared, begin_op, meets, on_message};
ghost use Rattle.eager_model.specs.Line.{AgedLine, first_line, after_take, row_taken};
ghost use Rattle.eager_model.specs.Processor.{hit_row, ages_after_hit, after_hit, ages_after_begin, after_begin, after_leave};
ghost use Rattle.eager_model.specs.Good.{IsEagerGood};
ghost use Rattle.eager_model.specs.Served.{age_served, age_taken, IsServedAt};

/// At first a line is good.
pub fn every_first_line()
    ensures good { (home : ℕ) (words : Words) → IsEagerGood home (first_line words) }
{}

/// The message at the front of a lane meets a row at its taker.
pub fn every_front()
    ensures meets { (home : ℕ) (line : AgedLine) (from to : ℕ) (class : Class) (content : Content) (rest : List Content) → IsEagerGood home line → line.line.lane from to class ≡ content ∷ rest → meets to home from (is_empty (line.line.copy to)) content (share_of line.line to) ≡ true }
{}

/// Taking any message keeps the line good. What its row serves, a write that the taker has begun or the load of another node, it serves once, on the newest words and at their age; no node's ages fall. A Put comes to a node whose load was served; what was begun at the taker stays so or is done, and nothing else is begun.
pub fn every_take()
    ensures kept { (home : ℕ) (line : AgedLine) (from to : ℕ) (class : Class) (content : Content) (rest : List Content) (age : ℕ) (ages : List ℕ) (room : Room) → IsEagerGood home line → line.line.lane from to class ≡ content ∷ rest → line.lane_age from to class ≡ age ∷ ages → IsEagerGood home (after_take home from to class content rest age ages room line) }
    ensures served { (home : ℕ) (line : AgedLine) (from to : ℕ) (class : Class) (content : Content) (rest : List Content) (room : Room) → IsEagerGood home line → line.line.lane from to class ≡ content ∷ rest → IsServedFor line.line.want line.line.answered to line.line.words (row_taken home from to content room line.line).served }
    ensures aged { (home : ℕ) (line : AgedLine) (from to : ℕ) (class : Class) (content : Content) (rest : List Content) (age : ℕ) (ages : List ℕ) (room : Room) → IsEagerGood home line → line.line.lane from to class ≡ content ∷ rest → line.lane_age from to class ≡ age ∷ ages → IsServedAt line (after_take home from to class content rest age ages room line).top to (age_taken home from to content age room line) (row_taken home from to content room line.line).served }
    ensures answered { (home : ℕ) (line : AgedLine) (from to : ℕ) (class : Class) (words : Words) (rest : List Content) → IsEagerGood home line → line.line.lane from to class ≡ Put words ∷ rest → line.line.answered to ≡ true }
    ensures done { (home : ℕ) (line : AgedLine) (from to : ℕ) (class : Class) (content : Content) (rest : List Content) (room : Room) → IsEagerGood home line → line.line.lane from to class ≡ content ∷ rest → EndsRight (line.line.answered to ≡ true) (row_taken home from to content room line.line) }
    ensures wants { (home from to : ℕ) (alone : Bool) (room : Room) (content : Content) (share : LineShare) → IsWantKept share.want (on_message to home from alone room content share).share.want }
{}

/// An operation that a copy serves keeps the line good. A load is done on the words of the copy's age, which may be older ones while the line drains; a write on the newest words, at the greatest age.
pub fn every_hit()
    ensures kept { (home : ℕ) (line : AgedLine) (node : ℕ) (op : Op) → IsEagerGood home line → serves op (line.line.copy node) ≡ true → IsEagerGood home (after_hit home node op line) }
    ensures aged { (home : ℕ) (line : AgedLine) (node : ℕ) (op : Op) → IsEagerGood home line → serves op (line.line.copy node) ≡ true → IsServedAt line (after_hit home node op line).top node (age_served home node (hit_row node op line) (ages_after_hit node op line) line) (hit_row node op line).served }
{}

/// Beginning an operation keeps the line good: where the home writes to a line that other nodes share, it drains from then on. The operation is the only one that is served, on the newest words, or left begun, and it is done where it is served.
pub fn every_beginning()
    ensures kept { (home : ℕ) (line : AgedLine) (node : ℕ) (op : Op) (room : Room) (outcome : Outcome) → IsEagerGood home line → line.line.want node ≡ None → begin_op node home room op (share_of line.line node) ≡ Ok outcome → IsEagerGood home (after_begin home node outcome line) }
    ensures served { (home : ℕ) (line : AgedLine) (node : ℕ) (op : Op) (room : Room) (outcome : Outcome) → IsEagerGood home line → line.line.want node ≡ None → begin_op node home room op (share_of line.line node) ≡ Ok outcome → IsOwnServed op line.line.words outcome.served }
    ensures aged { (home : ℕ) (line : AgedLine) (node : ℕ) (op : Op) (room : Room) (outcome : Outcome) → IsEagerGood home line → line.line.want node ≡ None → begin_op node home room op (share_of line.line node) ≡ Ok outcome → IsServedAt line (after_begin home node outcome line).top node (age_served home node outcome (ages_after_begin node outcome line) line) outcome.served }
    ensures begun { (home : ℕ) (line : AgedLine) (node : ℕ) (op : Op) (room : Room) (outcome : Outcome) → IsEagerGood home line → line.line.want node ≡ None → begin_op node home room op (share_of line.line node) ≡ Ok outcome → IsOwnWant op outcome.share.want }
    ensures done { (home : ℕ) (line : AgedLine) (node : ℕ) (op : Op) (room : Room) (outcome : Outcome) → IsEagerGood home line → line.line.want node ≡ None → begin_op node home room op (share_of line.line node) ≡ Ok outcome → EndsRight ⊥ outcome }
{}

/// An eviction keeps the line good.
pub fn every_eviction()
    ensures kept { (home : ℕ) (line : AgedLine) (node : ℕ) (kind : EvictKind) (outcome : Outcome) → IsEagerGood home line → evict node home kind (share_of line.line node) ≡ Ok outcome → IsEagerGood home (after_leave home node outcome line) }
    ensures quiet { (node home : ℕ) (kind : EvictKind) (share : LineShare) (outcome : Outcome) → evict node home kind share ≡ Ok outcome → outcome.served ≡ NoService }
{}

/// A load that was served and isn't done is one that its node has begun; a node has no copy of a line that it waits for; and the line is local exactly where the home has a copy.
pub fn every_want()
    ensures idle { (home : ℕ) (line : AgedLine) (node : ℕ) → IsEagerGood home line → line.line.want node ≡ None → line.line.answered node ≡ false }
    ensures writes { (home : ℕ) (line : AgedLine) (node : ℕ) (op : Op) (marked : Bool) → IsEagerGood home line → line.line.want node ≡ wanting op marked → is_load op.kind ≡ false → line.line.answered node ≡ false }
    ensures bare { (home : ℕ) (line : AgedLine) (node : ℕ) (op : Op) (marked : Bool) → IsEagerGood home line → line.line.want node ≡ wanting op marked → line.line.copy node ≡ Absent }
    ensures local { (home : ℕ) (line : AgedLine) → IsEagerGood home line → line.line.header.local ≡ not (is_empty (line.line.copy home)) }
{}

/// On a line that doesn't drain every message but a GetX that makes it drain does what it does in the delayed core. Whether a message meets a row may be asked of the node's cache set as well as of its copy, where a node that waits has both empty.
pub fn every_message()
    ensures same { (me home from : ℕ) (alone : Bool) (room : Room) (share : LineShare) (content : Content) → is_invalidate share.header.wait ≡ false → asks_shared room from share.header ≡ false → on_message me home from alone room content share ≡ delayed.on_message me home from alone room content share }
    ensures alone { (me home from : ℕ) (alone : Bool) (content : Content) (share : LineShare) → ((op : Op) (marked : Bool) → share.want ≡ wanting op marked → alone ≡ is_empty share.copy) → meets me home from alone content share ≡ meets me home from (is_empty share.copy) content share }
{}

/// A row at a node that isn't the line's home is the one of the delayed core.
pub fn every_row_elsewhere()
    ensures message { (me home from : ℕ) (alone : Bool) (room : Room) (content : Content) (share : LineShare) → me ≢ home → on_message me home from alone room content share ≡ delayed.on_message me home from alone room content share }
    ensures beginning { (me home : ℕ) (room : Room) (op : Op) (share : LineShare) → me ≢ home → begin_op me home room op share ≡ delayed_processor.begin_op me home room op share }
{}

/// A message brings no copy to a node that has none and has begun nothing, and ends no operation there.
pub fn every_idle_node()
    ensures empty { (me home from : ℕ) (alone : Bool) (room : Room) (content : Content) (share : LineShare) → share.copy ≡ Absent → share.want ≡ None → (me ≡ home → share.header.local ≡ not (is_empty share.copy)) → (on_message me home from alone room content share).share.copy ≡ Absent }
    ensures still { (me home from : ℕ) (alone : Bool) (room : Room) (content : Content) (share : LineShare) → share.want ≡ None → (on_message me home from alone room content share).done ≡ false }
{}
