//! What a node sends at one event.

use op_model::{Msg, NoMemory};
use std::alloc::Global;
use std::marker::Model;

/// Messages in the order in which they are sent, each with its destination, seen as the list of them and how many there is room for. It takes memory only where it is made.
#[derive(Drop)]
pub struct Sends {
    sends: Vec<(u32, Msg)>,
    room: u32,
}

impl Model for Sends {
    ghost use Rattle.std.specs.Prelude.{◌≤◌, ◌<◌, ◌^◌, vec_len, vec_capacity};
    ghost use Rattle.msg_words.specs.SendList.{SendList};

    ghost Value = { SendList };

    ghost view = { λ s. record { list = s.sends.items; room = s.room } };

    ghost invariant = { λ s. (vec_len s.sends ≤ s.room) × (s.room ≤ vec_capacity s.sends) × (s.room < 2 ^ 32) };
}

impl Sends {
    ghost use Rattle.std.specs.Prelude.{◌≡◌, ◌==◌, ◌+◌, ◌<◌, [], ◌∷◌, ◌++◌, IfOk, length, slice_get};

    /// An empty list with room for one message more than there are nodes.
    pub fn new(alloc: Global, nodes: u32) -> Result<Sends, NoMemory>
        requires { nodes < 4294967295 }
        ensures { IfOk result (λ sends. sends ≡ record { list = []; room = nodes + 1 }) }
    {
        let room = nodes + 1;
        match Vec::with_capacity(alloc, room as usize) {
            Ok(sends) => Ok(Sends { sends, room }),
            Err(_) => Err(NoMemory),
        }
    }

    /// Puts a message at the end, where there is room.
    pub fn push(&mut self, dst: u32, msg: Msg)
        requires { length self.old.list < self.old.room }
        ensures { self.new ≡ record self.old { list = self.old.list ++ (dst, msg) ∷ [] } }
    {
        self.sends.push_reserved((dst, msg));
    }

    /// How many messages it has.
    pub fn len(&self) -> u32
        ensures { result ≡ length self.now.list }
    {
        self.sends.len() as u32
    }

    /// Whether it has no message.
    pub fn is_empty(&self) -> bool
        ensures { result ≡ (length self.now.list == 0) }
    {
        self.sends.is_empty()
    }

    /// The destination and the message at a place, counted from 0.
    pub fn at(&self, i: u32) -> (u32, Msg)
        requires { i < length self.now.list }
        ensures { slice_get self.now.list i ≡ Some result }
    {
        self.sends[i as usize]
    }

    /// Empties the list. Its room stays.
    pub fn clear(&mut self)
        ensures { self.new ≡ record self.old { list = [] } }
    {
        self.sends.clear();
    }
}
