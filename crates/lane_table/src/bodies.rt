//! The words of a line behind a header word, one step each.

ghost use Rattle.std.specs.Prelude.{◌≡◌, ◌+◌, ◌<◌, true, None, [], length};
ghost use Rattle.op_model.specs.MessageWords.{from_words as named_by, words_behind, IsMsgOf};
ghost use Rattle.op_model.specs.Messages.{msg_content};
ghost use Rattle.op_model.specs.Parts.Part.{out_note, in_note, notes_empty};
ghost use Rattle.lane_table.specs.Layout.{cell_word};
ghost use Rattle.lane_table.specs.Views.{first_of, HasOne};
ghost use Rattle.lane_table.specs.Told.{Fronts};
ghost use Rattle.lane_table.specs.Calls.{NotesIn, NotesOut};

use crate::law::View;
use crate::steps::{load_of, store_of};
use crate::table::LaneTable;
use atomic_table::Seat;
use line_map::{Body, Machine};
use msg_words::from_words;
use op_model::{Class, Msg};
use std::marker::Brand;

/// The message that these words name, if they name one.
pub(crate) fn message_of(cfg: &Machine, header: u64, body: &Body) -> Option<Msg>
    requires { length body.now ≡ cfg.now.words }
    ensures { result ≡ named_by cfg.now header body.now }
{
    match from_words(cfg, header, body) {
        Ok(m) => Some(m),
        Err(_) => None,
    }
}

/// Loads the words behind the header word at `at`, for the taker of the lane from `src`.
pub(crate) fn read_body(
    t: &LaneTable,
    seat: &mut Seat<(), View>,
    at: usize,
    src: u32,
    class: Class,
) -> Body
    requires table { seat.old.table_id ≡ t.now.id }
    requires one { HasOne seat.old.me }
    requires src { src < t.now.setup.sizes.nodes }
    requires number { (first_of seat.old.me).number < t.now.setup.sizes.nodes }
    requires place { at ≡ cell_word t.now.setup.sizes src (first_of seat.old.me).number class 0 }
    requires none { (in_note (first_of seat.old.me) src class).body ≡ [] }
    requires front { Fronts t.now.setup (first_of seat.old.me) src class }
    ensures table { seat.new.table_id ≡ t.now.id }
    ensures one { HasOne seat.new.me }
    ensures words { length result ≡ t.now.setup.sizes.words }
    ensures note { NotesIn (first_of seat.old.me) (first_of seat.new.me) src class (record (in_note (first_of seat.old.me) src class) { body = result }) }
    ensures front { Fronts t.now.setup (first_of seat.new.me) src class }
{
    let words = t.cfg().words();
    let mut body = Body::zeros(words);
    for i in 0..words {
        let word = load_of::<Brand>(t, seat, at + 1 + i as usize, src, class);
        body.put(i, word);
    }
    body
}

/// Stores the words behind the empty header word at `at`, for the sender of the lane to `dst`.
pub(crate) fn put_body(
    t: &LaneTable,
    seat: &mut Seat<(), View>,
    at: usize,
    dst: u32,
    class: Class,
    body: &Body,
)
    requires table { seat.old.table_id ≡ t.now.id }
    requires one { HasOne seat.old.me }
    requires dst { dst < t.now.setup.sizes.nodes }
    requires number { (first_of seat.old.me).number < t.now.setup.sizes.nodes }
    requires place { at ≡ cell_word t.now.setup.sizes (first_of seat.old.me).number dst class 0 }
    requires free { notes_empty (out_note (first_of seat.old.me) dst class) ≡ true }
    requires none { (out_note (first_of seat.old.me) dst class).body ≡ [] }
    requires words { length body.now ≡ t.now.setup.sizes.words }
    ensures table { seat.new.table_id ≡ t.now.id }
    ensures one { HasOne seat.new.me }
    ensures note { NotesOut (first_of seat.old.me) (first_of seat.new.me) dst class (record (out_note (first_of seat.old.me) dst class) { body = body.now }) }
{
    for i in 0..t.cfg().words() {
        let word = body.get(i);
        store_of::<Brand>(t, seat, at + 1 + i as usize, word, dst, class);
    }
}

/// Stores the words that a message brings, if it brings any, for the sender of the lane to `dst`.
pub(crate) fn put_words(
    t: &LaneTable,
    seat: &mut Seat<(), View>,
    at: usize,
    dst: u32,
    class: Class,
    msg: &Msg,
)
    requires table { seat.old.table_id ≡ t.now.id }
    requires one { HasOne seat.old.me }
    requires dst { dst < t.now.setup.sizes.nodes }
    requires number { (first_of seat.old.me).number < t.now.setup.sizes.nodes }
    requires place { at ≡ cell_word t.now.setup.sizes (first_of seat.old.me).number dst class 0 }
    requires free { notes_empty (out_note (first_of seat.old.me) dst class) ≡ true }
    requires none { (out_note (first_of seat.old.me) dst class).body ≡ [] }
    requires message { IsMsgOf t.now.setup.sizes msg.now }
    ensures table { seat.new.table_id ≡ t.now.id }
    ensures one { HasOne seat.new.me }
    ensures note { NotesOut (first_of seat.old.me) (first_of seat.new.me) dst class (record (out_note (first_of seat.old.me) dst class) { body = words_behind (msg_content msg.now) }) }
{
    if let Some(body) = msg.body_words() {
        put_body(t, seat, at, dst, class, &body);
    }
}
