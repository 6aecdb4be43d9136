//! Header words worked by hand from their layout: kind, argument times 16, line times 4096.

ghost use Rattle.std.specs.Prelude.{◌≡◌, length};

use crate::agree::agree;
use line_map::{Body, Machine};
use msg_words::{BadWord, Class, Msg, NakCause, from_words};
use std::process::Abort;
use std::test::Fail;

// A machine with lines of one word.
fn machine_of(rt: &impl Abort, nodes: u64, lines: u64) -> Machine
    ensures { result.words ≡ 1 }
{
    let cfg = Machine::new(nodes, lines, 1, 1, 1, 1, 1).expect(
        rt,
        "the sizes are within their limits",
    );
    assert!(rt; cfg.words() == 1);
    cfg
}

/// One message of each kind that has no words, for 8 lines and 4 nodes, with its header word and its class.
const WITHOUT_WORDS: [(Msg, u64, Class); 10] = [
    (Msg::Get { line: 0 }, 0x0001, Class::Request),
    (Msg::GetX { line: 1 }, 0x1002, Class::Request),
    (Msg::FwdGet { line: 5, req: 3 }, 20531, Class::Request),
    (Msg::FwdGetX { line: 7, req: 2 }, 0x7024, Class::Request),
    (Msg::Inv { line: 2 }, 0x2005, Class::Request),
    (Msg::Rpl { line: 4 }, 0x4007, Class::Request),
    (
        Msg::Nak {
            line: 1,
            cause: NakCause::Gone,
        },
        0x103a,
        Class::Reply,
    ),
    (Msg::InvAck { line: 7 }, 0x700b, Class::Reply),
    (Msg::FAck { line: 2 }, 0x200d, Class::Reply),
    (Msg::Nakc { line: 3 }, 0x300e, Class::Reply),
];

// The same of each kind that has words.
fn with_words(body: Body) -> [(Msg, u64, Class); 4] {
    [
        (Msg::Wb { line: 3, body }, 0x3006, Class::Request),
        (Msg::Put { line: 6, body }, 0x6008, Class::Reply),
        (Msg::PutX { line: 5, body }, 0x5009, Class::Reply),
        (Msg::ShWb { line: 0, body }, 0x000c, Class::Reply),
    ]
}

// The message that a header word and a body name.
fn named(rt: &impl Abort, word: u64, body: &Body) -> Msg
    requires { length body.now ≡ 1 }
{
    match from_words(&machine_of(rt, 4, 2), word, body) {
        Ok(m) => m,
        Err(_) => panic!(rt; "no message has the word {word:#x}"),
    }
}

// A message has this header word and this class, and is named by the word.
fn is_worded(rt: &impl Abort, m: &Msg, word: u64, class: Class) {
    let mut body = Body::zeros(1);
    body.put(0, 77);
    let row = word as usize;
    agree(rt, row, "header word", m.header_word(), word);
    agree(rt, row, "class", m.class(), class);
    let named = named(rt, word, &body);
    agree(rt, row, "named header word", named.header_word(), word);
    agree(rt, row, "named line", named.line(), m.line());
    agree(
        rt,
        row,
        "named body",
        named.body_words().is_some(),
        m.body_words().is_some(),
    );
}

#[test]
fn words_without_a_body(rt: HostRuntime) {
    for (m, word, class) in &WITHOUT_WORDS {
        is_worded(&rt, m, *word, *class);
    }
}

#[test]
fn words_with_a_body(rt: HostRuntime) {
    let mut body = Body::zeros(1);
    body.put(0, 77);
    for (m, word, class) in &with_words(body) {
        is_worded(&rt, m, *word, *class);
    }
}

/// Words that name no message of two nodes with one line each: no kind, an argument where none may stand, a cause above 3, a requester that isn't a node, lines that aren't there, bit 32.
const REFUSED: [u64; 11] = [
    0,
    15,
    0x1010,
    0x0011,
    0x0016,
    0x004a,
    0x0023,
    0x2001,
    20531,
    0x1_0000_0001,
    0x8000_0000_0000_0001,
];

#[test]
fn refused_words(rt: HostRuntime) {
    let cfg = machine_of(&rt, 2, 1);
    let body = Body::zeros(1);
    for word in REFUSED.iter() {
        let is_refused = matches!(from_words(&cfg, *word, &body), Err(BadWord));
        agree(&rt, *word as usize, "refused", is_refused, true);
    }
    assert!(rt;
        matches!(
            from_words(&cfg, 0x1013, &body),
            Ok(Msg::FwdGet { line: 1, req: 1 })
        )
    );
}
