//! The text of the whole state.

ghost use Rattle.std.specs.Prelude.{◌≡◌, IfOk};
ghost use Rattle.time_view.specs.States.{state_text as text_of_state};

use crate::copies::put_copies;
use crate::lanes::put_lanes;
use crate::memory::put_memory;
use crate::nodes::put_nodes;
use crate::viewed::Viewed;
use decimal_text::{put_bytes, put_named};
use dir_report::put_lines;
use op_model::NoMemory;
use std::alloc::Global;

/// The whole state that the machine's run has come to, as bytes: its nodes, the copies in the caches, the memory, the headers and the messages under way. It takes time of all nodes with all lines.
#[tactic(auto, unfolding(crate::specs::States::state_text))]
pub fn state_text<M: Viewed>(alloc: Global, m: &M) -> Result<Vec<u8>, NoMemory>
    ensures { IfOk result (λ v. v.items ≡ text_of_state (M.meaning m.now)) }
{
    let mut out = Vec::new(alloc);
    put_bytes(&mut out, b"flash state 1\n")?;
    put_named(&mut out, b"step ", m.event_count())?;
    put_nodes(&mut out, m)?;
    put_copies(alloc, &mut out, m)?;
    put_memory(alloc, &mut out, m)?;
    put_lines(alloc, &mut out, b"headers ", m)?;
    put_lanes(alloc, &mut out, m)?;
    put_bytes(&mut out, b"end\n")?;
    Ok(out)
}
