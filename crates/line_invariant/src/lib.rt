//! One line of the machine, seen alone: what holds of it at each moment, and that every row of the tables keeps it.
//!
//! What holds is `IsGood` of `specs/Good.antt`. A line is in one phase, each node has a role in it, and the messages in all lanes are told from what is under way for each node. The functions here do nothing; their contracts are the laws.
#![tactic(auto)]

ghost use Rattle.std.specs.Prelude.{◌≡◌, ◌≢◌, ℕ, Bool, true, false, not, List, ◌∷◌, None, Some, Option, Result, Ok};
ghost use Rattle.line_invariant.specs.Types.{Op, Want, Class, EvictKind};
ghost use Rattle.op_model.specs.Operations.{Words, is_load};
ghost use Rattle.op_model.specs.Messages.{Content, Put};
ghost use Rattle.op_model.specs.Lines.{Absent, Header, LineShare, Room, Outcome, is_empty, is_pending, words_of};
ghost use Rattle.op_model.specs.Tables.Processor.{serves, hit, begin_op, evict, reclaim, call_in, holds_link};
ghost use Rattle.op_model.specs.Tables.Remote.{meets, on_message};
ghost use Rattle.line_invariant.specs.Line.{Line, first_line, share_of, row_taken, after_row, after_take};
ghost use Rattle.line_invariant.specs.Good.{IsGood};
ghost use Rattle.line_invariant.specs.Rows.{wanting, with_header, with_header_ok, IsServedFor, IsOwnServed, IsOwnWant, IsWantKept, EndsRight};

/// At first a line is good: no node has a copy, nothing is begun and no message is under way.
pub fn every_first_line()
    ensures good { (home : ℕ) (words : Words) → IsGood home (first_line words) }
{}

/// The message at the front of a lane meets a row at its taker.
pub fn every_front()
    ensures meets { (home : ℕ) (line : Line) (from to : ℕ) (class : Class) (content : Content) (rest : List Content) → IsGood home line → line.lane from to class ≡ content ∷ rest → meets to home from (is_empty (line.copy to)) content (share_of line to) ≡ true }
{}

/// Taking any message keeps the line good. What its row serves, it serves on the line's words; a Put comes to a node whose load was served; what was begun at the taker stays so or is done, and nothing else is begun.
pub fn every_take()
    ensures kept { (home : ℕ) (line : Line) (from to : ℕ) (class : Class) (content : Content) (rest : List Content) (room : Room) → IsGood home line → line.lane from to class ≡ content ∷ rest → IsGood home (after_take home from to class content rest room line) }
    ensures served { (home : ℕ) (line : Line) (from to : ℕ) (class : Class) (content : Content) (rest : List Content) (room : Room) → IsGood home line → line.lane from to class ≡ content ∷ rest → IsServedFor line.want line.answered to line.words (row_taken home from to content room line).served }
    ensures answered { (home : ℕ) (line : Line) (from to : ℕ) (class : Class) (words : Words) (rest : List Content) → IsGood home line → line.lane from to class ≡ Put words ∷ rest → line.answered to ≡ true }
    ensures done { (home : ℕ) (line : Line) (from to : ℕ) (class : Class) (content : Content) (rest : List Content) (room : Room) → IsGood home line → line.lane from to class ≡ content ∷ rest → EndsRight (line.answered to ≡ true) (row_taken home from to content room line) }
    ensures wants { (home from to : ℕ) (alone : Bool) (room : Room) (content : Content) (share : LineShare) → IsWantKept share.want (on_message to home from alone room content share).share.want }
{}

/// An operation that the copy serves is done on the line's words, and the line stays good.
pub fn every_hit()
    ensures kept { (home : ℕ) (line : Line) (node : ℕ) (op : Op) → IsGood home line → serves op (line.copy node) ≡ true → IsGood home (after_row home node (hit op (share_of line node)) line) }
    ensures fresh { (home : ℕ) (line : Line) (node : ℕ) (op : Op) → IsGood home line → serves op (line.copy node) ≡ true → words_of (line.copy node) ≡ line.words }
{}

/// Beginning an operation keeps the line good. It is the only one that is served, on the line's words, or left begun, and it is done where it is served.
pub fn every_beginning()
    ensures kept { (home : ℕ) (line : Line) (node : ℕ) (op : Op) (room : Room) (outcome : Outcome) → IsGood home line → line.want node ≡ None → begin_op node home room op (share_of line node) ≡ Ok outcome → IsGood home (after_row home node outcome line) }
    ensures served { (home : ℕ) (line : Line) (node : ℕ) (op : Op) (room : Room) (outcome : Outcome) → IsGood home line → line.want node ≡ None → begin_op node home room op (share_of line node) ≡ Ok outcome → IsOwnServed op line.words outcome.served }
    ensures begun { (home : ℕ) (line : Line) (node : ℕ) (op : Op) (room : Room) (outcome : Outcome) → IsGood home line → line.want node ≡ None → begin_op node home room op (share_of line node) ≡ Ok outcome → IsOwnWant op outcome.share.want }
    ensures done { (home : ℕ) (line : Line) (node : ℕ) (op : Op) (room : Room) (outcome : Outcome) → IsGood home line → line.want node ≡ None → begin_op node home room op (share_of line node) ≡ Ok outcome → EndsRight ⊥ outcome }
{}

/// An eviction keeps the line good.
pub fn every_eviction()
    ensures kept { (home : ℕ) (line : Line) (node : ℕ) (kind : EvictKind) (outcome : Outcome) → IsGood home line → evict node home kind (share_of line node) ≡ Ok outcome → IsGood home (after_row home node outcome line) }
{}

/// The home may call the copies of a line in that holds a link and isn't pending, by itself or for a victim: the line stays good.
pub fn every_reclaim()
    ensures kept { (home : ℕ) (line : Line) (room : Room) (outcome : Outcome) → IsGood home line → reclaim room (share_of line home) ≡ Ok outcome → IsGood home (after_row home home outcome line) }
    ensures called { (home : ℕ) (line : Line) (room : Room) → IsGood home line → is_pending line.header ≡ false → holds_link room line.header ≡ true → IsGood home (after_row home home (call_in (share_of line home)) line) }
{}

/// A load that was served and isn't done is one that its node has begun; and a node has no copy of a line that it waits for.
pub fn every_want()
    ensures idle { (home : ℕ) (line : Line) (node : ℕ) → IsGood home line → line.want node ≡ None → line.answered node ≡ false }
    ensures writes { (home : ℕ) (line : Line) (node : ℕ) (op : Op) (marked : Bool) → IsGood home line → line.want node ≡ wanting op marked → is_load op.kind ≡ false → line.answered node ≡ false }
    ensures bare { (home : ℕ) (line : Line) (node : ℕ) (op : Op) (marked : Bool) → IsGood home line → line.want node ≡ wanting op marked → line.copy node ≡ Absent }
{}

/// A row at a node that isn't the line's home neither reads nor changes the header.
pub fn every_row_elsewhere()
    ensures message { (node home from : ℕ) (share : LineShare) (header : Header) (alone : Bool) (room : Room) (content : Content) → node ≢ home → on_message node home from alone room content (record share { header = header }) ≡ with_header header (on_message node home from alone room content share) }
    ensures beginning { (node home : ℕ) (share : LineShare) (header : Header) (room : Room) (op : Op) → node ≢ home → begin_op node home room op (record share { header = header }) ≡ with_header_ok header (begin_op node home room op share) }
    ensures eviction { (node home : ℕ) (share : LineShare) (header : Header) (kind : EvictKind) → node ≢ home → evict node home kind (record share { header = header }) ≡ with_header_ok header (evict node home kind share) }
{}

/// A message brings no copy to a node that has none and has begun nothing, and ends no operation there.
pub fn every_idle_node()
    ensures empty { (node home from : ℕ) (alone : Bool) (room : Room) (content : Content) (share : LineShare) → share.copy ≡ Absent → share.want ≡ None → (node ≡ home → share.header.local ≡ not (is_empty share.copy)) → (on_message node home from alone room content share).share.copy ≡ Absent }
    ensures still { (node home from : ℕ) (alone : Bool) (room : Room) (content : Content) (share : LineShare) → share.want ≡ None → (on_message node home from alone room content share).done ≡ false }
{}
