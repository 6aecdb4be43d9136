//! The messages under way.

ghost use Rattle.std.specs.Prelude.{◌≡◌, ◌≤◌, ◌<◌, ◌++◌, [], ◌∷◌, codes, IfOk, OnOk};
ghost use Rattle.std.specs.List.{flat_map};
ghost use Rattle.op_model.specs.Messages.{msg_content};
ghost use Rattle.op_model.specs.MessageWords.{IsMsgOf};
ghost use Rattle.op_model.specs.Run.Schedules.{all_nodes, both_lanes};
ghost use Rattle.text_lines.specs.Printing.{line_text};
ghost use Rattle.step_journal.specs.Printing.{class_letter};
ghost use Rattle.time_view.specs.Messages.{cause_word, message_name, rest_words, message_words};
ghost use Rattle.time_view.specs.States.{lane_lines, all_messages, lanes_text};
ghost use Rattle.time_view.specs.Puts.{ArePut};

use crate::lines::{put_section, put_words};
use crate::viewed::Viewed;
use decimal_text::{put_bytes, put_decimal, put_named};
use line_map::Machine;
use op_model::{Class, Msg, NakCause, NoMemory};
use std::alloc::Global;

/// The class, between two spaces.
fn class_part(class: Class) -> &'static [u8]
    ensures { result.now ≡ codes " " ++ (class_letter class ++ codes " ") }
{
    match class {
        Class::Request => b" q ",
        Class::Reply => b" r ",
    }
}

/// The name of a message, with the space behind it.
pub fn name_part(msg: &Msg) -> &'static [u8]
    ensures { result.now ≡ message_name (msg_content msg.now) ++ codes " " }
{
    match msg {
        Msg::Get { .. } => b"Get ",
        Msg::GetX { .. } => b"GetX ",
        Msg::FwdGet { .. } => b"FwdGet ",
        Msg::FwdGetX { .. } => b"FwdGetX ",
        Msg::Inv { .. } => b"Inv ",
        Msg::Wb { .. } => b"Wb ",
        Msg::Rpl { .. } => b"Rpl ",
        Msg::Put { .. } => b"Put ",
        Msg::PutX { .. } => b"PutX ",
        Msg::Nak { .. } => b"Nak ",
        Msg::InvAck { .. } => b"InvAck ",
        Msg::ShWb { .. } => b"ShWb ",
        Msg::FAck { .. } => b"FAck ",
        Msg::Nakc { .. } => b"Nakc ",
    }
}

/// The end of the line of a Nak: its cause.
fn cause_end(cause: NakCause) -> &'static [u8]
    ensures { result.now ≡ line_text ([] ∷ cause_word cause ∷ []) }
{
    match cause {
        NakCause::Pending => b" Pending\n",
        NakCause::NoLink => b" NoLink\n",
        NakCause::Budget => b" Budget\n",
        NakCause::Gone => b" Gone\n",
    }
}

/// The end of a message's line: the requester of a forward, the cause of a Nak, or the words that it brings.
fn put_rest(out: &mut Vec<u8>, cfg: &Machine, msg: &Msg) -> Result<(), NoMemory>
    requires { IsMsgOf cfg.now msg.now }
    ensures { OnOk result (out.new.items ≡ out.old.items ++ line_text ([] ∷ rest_words (msg_content msg.now))) }
{
    match msg {
        Msg::FwdGet { req, .. } | Msg::FwdGetX { req, .. } => put_named(out, b" ", u64::from(*req)),
        Msg::Nak { cause, .. } => put_bytes(out, cause_end(*cause)),
        Msg::Wb { body, .. }
        | Msg::Put { body, .. }
        | Msg::PutX { body, .. }
        | Msg::ShWb { body, .. } => {
            put_bytes(out, b" ")?;
            put_words(out, body, cfg.words())?;
            put_bytes(out, b"\n")
        }
        _ => put_bytes(out, b"\n"),
    }
}

pub(crate) fn put_message(
    out: &mut Vec<u8>,
    cfg: &Machine,
    src: u32,
    dst: u32,
    class: Class,
    msg: &Msg,
) -> Result<(), NoMemory>
    requires { IsMsgOf cfg.now msg.now }
    ensures { OnOk result (out.new.items ≡ out.old.items ++ line_text (message_words (record { src = src; dst = dst; class = class }) msg.now)) }
{
    put_decimal(out, u64::from(src))?;
    put_bytes(out, b" ")?;
    put_decimal(out, u64::from(dst))?;
    put_bytes(out, class_part(class))?;
    put_bytes(out, name_part(msg))?;
    put_decimal(out, u64::from(msg.line()))?;
    put_rest(out, cfg, msg)
}

/// Appends a line for each message of a lane, from the front, and answers how many they are.
fn put_lane<M: Viewed>(
    out: &mut Vec<u8>,
    m: &M,
    src: u32,
    dst: u32,
    class: Class,
) -> Result<u32, NoMemory>
    requires from { src < (M.meaning m.now).sizes.nodes }
    requires to { dst < (M.meaning m.now).sizes.nodes }
    ensures { IfOk result (λ n. ArePut out.old.items out.new.items n (lane_lines (M.meaning m.now).past.state (record { src = src; dst = dst; class = class }))) }
{
    let cfg = m.cfg();
    let count = m.lane_len(src, dst, class);
    for i in 0..count {
        put_message(out, &cfg, src, dst, class, &m.lane_at(src, dst, class, i))?;
    }
    Ok(count)
}

/// The same for the two lanes from one node to another.
fn put_both<M: Viewed>(out: &mut Vec<u8>, m: &M, src: u32, dst: u32) -> Result<u64, NoMemory>
    requires from { src < (M.meaning m.now).sizes.nodes }
    requires to { dst < (M.meaning m.now).sizes.nodes }
    ensures put { IfOk result (λ n. ArePut out.old.items out.new.items n (flat_map (lane_lines (M.meaning m.now).past.state) (both_lanes src dst))) }
    ensures few { IfOk result (λ n. n ≤ 8589934592) }
{
    let requests = put_lane(out, m, src, dst, Class::Request)?;
    let replies = put_lane(out, m, src, dst, Class::Reply)?;
    Ok(u64::from(requests) + u64::from(replies))
}

/// The same for all lanes from a node.
fn put_from<M: Viewed>(out: &mut Vec<u8>, m: &M, src: u32) -> Result<u64, NoMemory>
    requires { src < (M.meaning m.now).sizes.nodes }
    ensures put { IfOk result (λ n. ArePut out.old.items out.new.items n (flat_map (lane_lines (M.meaning m.now).past.state) (flat_map (both_lanes src) (all_nodes (M.meaning m.now).sizes)))) }
    ensures few { IfOk result (λ n. n ≤ 549755813888) }
{
    let mut count = 0;
    for dst in 0..m.cfg().nodes() {
        count += put_both(out, m, src, dst)?;
    }
    Ok(count)
}

fn put_all_messages<M: Viewed>(out: &mut Vec<u8>, m: &M) -> Result<u64, NoMemory>
    ensures { IfOk result (λ n. ArePut out.old.items out.new.items n (all_messages (M.meaning m.now).sizes (M.meaning m.now).past.state)) }
{
    let mut count = 0;
    for src in 0..m.cfg().nodes() {
        count += put_from(out, m, src)?;
    }
    Ok(count)
}

/// Appends the number of messages under way and a line for each one, in lane order.
#[tactic(auto, unfolding(crate::specs::States::lanes_text))]
pub(crate) fn put_lanes<M: Viewed>(alloc: Global, out: &mut Vec<u8>, m: &M) -> Result<(), NoMemory>
    ensures { OnOk result (out.new.items ≡ out.old.items ++ lanes_text (M.meaning m.now).sizes (M.meaning m.now).past.state) }
{
    let mut text = Vec::new(alloc);
    let count = put_all_messages(&mut text, m)?;
    put_section(out, b"lanes ", count, &text)
}
