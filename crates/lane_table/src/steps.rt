//! Single steps of a seat with one part.

ghost use Rattle.std.specs.Prelude.{◌≡◌, ℕ, ◌+◌, ◌%◌, ◌^◌, ◌<◌, [], ◌∷◌};
ghost use Rattle.op_model.specs.Parts.Part.{Part};
ghost use Rattle.lane_table.specs.Rule.{Keeps};
ghost use Rattle.lane_table.specs.Views.{first_of, HasOne};
ghost use Rattle.lane_table.specs.Told.{tells_none};

use crate::law::View;
use crate::table::LaneTable;
use atomic_table::{Play, Seat};
use op_model::{Class, Event};
use std::marker::{Brand, PhantomData};

/// What one step makes of the part. Each call picks it.
pub(crate) trait About {
    ghost use Rattle.std.specs.Prelude.{ℕ};
    ghost use Rattle.op_model.specs.Parts.Part.{Part};

    // The part after the step, from the part before and the number found.
    ghost after: { Part → ℕ → Part };
    // What the rule says of the number found.
    ghost tells: { Part → ℕ → Type 0 };
}

impl About for Brand {
    ghost after = { λ p n. p };

    ghost tells = { λ p n. Unit {0} };
}

/// One step, after which the part is what the call picked.
struct Does<A: About> {
    of: PhantomData<A>,
}

impl<A: About> Play<(), View> for Does<A> {
    ghost then = { λ st v n w. (w ≡ (A.after (first_of v) n ∷ [], [])) × A.tells (first_of v) n };
}

/// One store, after which the part is what the call picked.
struct Stores<A: About> {
    of: PhantomData<A>,
}

impl<A: About> Play<(), View> for Stores<A> {
    ghost then = { λ st v n w. (w ≡ (A.after (first_of v) n ∷ [], [])) × Unit {0} };
}

/// A load that is about the lane to or from `peer`.
pub(crate) fn load_of<A: About>(
    t: &LaneTable,
    seat: &mut Seat<(), View>,
    at: usize,
    _peer: u32,
    _class: Class,
) -> u64
    requires table { seat.old.table_id ≡ t.now.id }
    requires one { HasOne seat.old.me }
    requires at { at < t.now.id.words }
    requires keeps { Keeps t.now.setup at (λ n. n) (first_of seat.old.me) (A.after (first_of seat.old.me)) (A.tells (first_of seat.old.me)) }
    ensures table { seat.new.table_id ≡ t.now.id }
    ensures part { seat.new.me ≡ (A.after (first_of seat.old.me) result ∷ [], []) }
    ensures told { A.tells (first_of seat.old.me) result }
{
    t.table.shared.load::<Does<A>>(seat, at)
}

/// A store that is about the lane to or from `peer`.
pub(crate) fn store_of<A: About>(
    t: &LaneTable,
    seat: &mut Seat<(), View>,
    at: usize,
    new: u64,
    _peer: u32,
    _class: Class,
)
    requires table { seat.old.table_id ≡ t.now.id }
    requires one { HasOne seat.old.me }
    requires at { at < t.now.id.words }
    requires keeps { Keeps t.now.setup at (λ _. new) (first_of seat.old.me) (λ _. A.after (first_of seat.old.me) new) tells_none }
    ensures table { seat.new.table_id ≡ t.now.id }
    ensures part { seat.new.me ≡ (A.after (first_of seat.old.me) new ∷ [], []) }
{
    t.table.shared.store::<Stores<A>>(seat, at, new)
}

/// A ticket for the event.
pub(crate) fn draw_of<A: About>(t: &LaneTable, seat: &mut Seat<(), View>, _event: Event) -> u64
    requires table { seat.old.table_id ≡ t.now.id }
    requires one { HasOne seat.old.me }
    requires keeps { Keeps t.now.setup 0 (λ n. (n + 1) % 2 ^ 64) (first_of seat.old.me) (A.after (first_of seat.old.me)) (A.tells (first_of seat.old.me)) }
    ensures table { seat.new.table_id ≡ t.now.id }
    ensures part { seat.new.me ≡ (A.after (first_of seat.old.me) result ∷ [], []) }
    ensures told { A.tells (first_of seat.old.me) result }
{
    t.table.shared.fetch_add::<Does<A>>(seat, 0, 1)
}
