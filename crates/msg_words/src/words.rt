//! The message that a header word and the words behind it name.

ghost use Rattle.std.specs.Prelude.{◌≡◌, ◌≢◌, ◌<◌, ◌≤◌, ◌^◌, ◌↔◌, ℕ, None, Some, IsErr, MatchResult, length};
ghost use Rattle.line_map.specs.Sizes.{Sizes, AreSizes, all_lines};
ghost use Rattle.op_model.specs.Operations.{Words};
ghost use Rattle.op_model.specs.Messages.{msg_line, msg_content};
ghost use Rattle.op_model.specs.MessageWords.{header_word, words_behind, IsMsgOf, content_by, nak_by, from_words as msg_named};
ghost use Rattle.msg_words.specs.Named.{IsBehind, IsNamedBy, NoMsgHas};

use line_map::{Body, Machine};
use op_model::{Msg, NakCause};

/// No message of this machine has the header word.
#[derive(Clone, Copy, Debug, PartialEq, Eq)]
pub struct BadWord;

// The line with this number, of those of all memory.
fn line_at(cfg: &Machine, number: u64) -> Result<u32, BadWord>
    ensures line { MatchResult result (λ line. (line ≡ number) × (number < all_lines cfg.now)) (λ _. all_lines cfg.now ≤ number) }
    ensures few { cfg.now.nodes ≤ 64 }
{
    if number < u64::from(cfg.nodes() * cfg.lines()) {
        Ok(number as u32)
    } else {
        Err(BadWord)
    }
}

// A message that has no argument.
fn bare(argument: u32, m: Msg) -> Result<Msg, BadWord>
    ensures { MatchResult result (λ named. (named ≡ m) × (argument ≡ 0)) (λ _. argument ≢ 0) }
{
    if argument == 0 { Ok(m) } else { Err(BadWord) }
}

// A forward, whose argument is a node.
fn forward(cfg: &Machine, argument: u32, m: Msg) -> Result<Msg, BadWord>
    ensures { MatchResult result (λ named. (named ≡ m) × (argument < cfg.now.nodes)) (λ _. cfg.now.nodes ≤ argument) }
{
    if argument < cfg.nodes() {
        Ok(m)
    } else {
        Err(BadWord)
    }
}

// A Nak, whose argument is its cause.
fn nak_of(line: u32, argument: u32) -> Result<Msg, BadWord>
    ensures { MatchResult result (λ named. (msg_line named ≡ line) × (nak_by argument ≡ Some (msg_content named))) (λ _. nak_by argument ≡ None) }
{
    let cause = match argument {
        0 => NakCause::Pending,
        1 => NakCause::NoLink,
        2 => NakCause::Budget,
        3 => NakCause::Gone,
        _ => return Err(BadWord),
    };
    Ok(Msg::Nak { line, cause })
}

// What is said of a line by a kind, an argument and the words behind the header word.
fn said_of(cfg: &Machine, line: u32, kind: u64, argument: u32, body: &Body) -> Result<Msg, BadWord>
    requires { length body.now ≡ cfg.now.words }
    ensures { MatchResult result (λ named. (msg_line named ≡ line) × (content_by cfg.now kind argument body.now ≡ Some (msg_content named))) (λ _. content_by cfg.now kind argument body.now ≡ None) }
{
    let req = argument;
    match kind {
        1 => bare(argument, Msg::Get { line }),
        2 => bare(argument, Msg::GetX { line }),
        3 => forward(cfg, req, Msg::FwdGet { line, req }),
        4 => forward(cfg, req, Msg::FwdGetX { line, req }),
        5 => bare(argument, Msg::Inv { line }),
        6 => bare(argument, Msg::Wb { line, body: *body }),
        7 => bare(argument, Msg::Rpl { line }),
        8 => bare(argument, Msg::Put { line, body: *body }),
        9 => bare(argument, Msg::PutX { line, body: *body }),
        10 => nak_of(line, argument),
        11 => bare(argument, Msg::InvAck { line }),
        12 => bare(argument, Msg::ShWb { line, body: *body }),
        13 => bare(argument, Msg::FAck { line }),
        14 => bare(argument, Msg::Nakc { line }),
        _ => Err(BadWord),
    }
}

/// The message with this header word and these words behind it, as many as a line has. For a message without words the body isn't used.
pub fn from_words(cfg: &Machine, header: u64, body: &Body) -> Result<Msg, BadWord>
    requires { length body.now ≡ cfg.now.words }
    ensures named { MatchResult result (λ m. msg_named cfg.now header body.now ≡ Some m) (λ _. msg_named cfg.now header body.now ≡ None) }
    ensures message { MatchResult result (IsNamedBy cfg.now header body.now) (λ _. NoMsgHas cfg.now header) }
    ensures refused { IsErr result ↔ NoMsgHas cfg.now header }
{
    let line = line_at(cfg, header / 4096)?;
    said_of(cfg, line, header % 16, (header / 16 % 256) as u32, body)
}

/// A message of a machine is the one that its header word and its words name, and the other way round: what words name is a message of the machine with that header word and those words. No header word is 0, which stands for an empty cell, and none has a bit above bit 31.
pub fn message_words()
    ensures named { (sizes : Sizes) (m : Msg) (words : Words) → AreSizes sizes → IsMsgOf sizes m → IsBehind m words → msg_named sizes (header_word m) words ≡ Some m }
    ensures names { (sizes : Sizes) (word : ℕ) (words : Words) (m : Msg) → msg_named sizes word words ≡ Some m → IsNamedBy sizes word words m }
    ensures one { (sizes : Sizes) (m other : Msg) → AreSizes sizes → IsMsgOf sizes m → IsMsgOf sizes other → header_word m ≡ header_word other → words_behind (msg_content m) ≡ words_behind (msg_content other) → m ≡ other }
    ensures above { (m : Msg) → 0 < header_word m }
    ensures below { (sizes : Sizes) (m : Msg) → AreSizes sizes → IsMsgOf sizes m → header_word m < 2 ^ 32 }
{}
