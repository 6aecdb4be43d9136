//! Two nodes with one line each. Node 1 loads the line of node 0: a Get goes to node 0, and a Put comes back.

ghost use Rattle.std.specs.Prelude.{◌≡◌, ◌<◌, true, None, Some, [], ◌∷◌, ◌++◌, IfOk};
ghost use Rattle.op_model.specs.declared.events.Class.TheVariants.{Request as Requests, Reply as Replies};
ghost use Rattle.op_model.specs.declared.messages.Msg.TheVariants as msg;
ghost use Rattle.op_model.specs.Messages.{msg_class, msg_content};
ghost use Rattle.op_model.specs.MessageWords.{has_words};
ghost use Rattle.op_model.specs.Parts.Part.{part_at_start, taken_from, cleared_from};
ghost use Rattle.out_space.specs.Boxes.{waiting, with_waiting, empty_box};
ghost use Rattle.lane_table.specs.Views.{IsSeatOf};
ghost use Rattle.lane_table.specs.Told.{unflushed};
ghost use Rattle.lane_table.specs.Samples.{small_sizes, small_setup, a_load, HasAsked};

use lane_table::{LaneTable, NodeSeat};
use line_map::{Body, Machine};
use op_model::{Class, Event, Kind, Msg, Op, Program};
use out_space::Outbox;
use std::alloc::Global;
use std::process::Abort;
use std::test::Fail;
use std::thread::join;

fn smallest(rt: &impl Abort) -> Machine
    ensures { result ≡ small_sizes }
{
    Machine::new(2, 1, 1, 1, 1, 1, 1).expect(rt, "the sizes are within their limits")
}

// No operation at node 0, and a load of word 0 at node 1.
fn programs(alloc: Global) -> Result<Vec<Program>, Fail>
    ensures { IfOk result (λ all. all.items ≡ small_setup.programs) }
{
    let mut load = Program::empty(alloc);
    load.push(Op {
        node: 1,
        index: 0,
        kind: Kind::Load,
        word: 0,
        value: 0,
    })?;
    let mut all = Vec::new(alloc);
    all.push(Program::empty(alloc))?;
    all.push(load)?;
    Ok(all)
}

// The table, and the seats of its two nodes. There is no third one.
fn seated(rt: &impl Abort, alloc: Global) -> Result<(LaneTable, NodeSeat, NodeSeat), Fail>
    ensures table { IfOk result (λ r. r.0.setup ≡ small_setup) }
    ensures zero { IfOk result (λ r. IsSeatOf r.0 r.1 × (r.1.part ≡ part_at_start small_sizes 0 [])) }
    ensures one { IfOk result (λ r. IsSeatOf r.0 r.2 × (r.2.part ≡ part_at_start small_sizes 1 (a_load ∷ []))) }
{
    let cfg = smallest(rt);
    let all = programs(alloc)?;
    let (t, mut seats) = LaneTable::new(alloc, cfg, all.as_slice())?;
    let Some(zero) = seats.next(&t) else {
        return Err(Fail::new("no first seat"));
    };
    let Some(one) = seats.next(&t) else {
        return Err(Fail::new("no second seat"));
    };
    assert!(rt; seats.next(&t).is_none());
    Ok((t, zero, one))
}

// The request for line 0.
fn the_get(rt: &impl Abort, found: Option<Msg>) -> Msg
    ensures found { found ≡ Some result }
    ensures get { result ≡ msg.Get 0 }
{
    match found {
        Some(Msg::Get { line: 0 }) => Msg::Get { line: 0 },
        _ => panic!(rt; "no request"),
    }
}

// The answer for line 0, with the word 0.
fn the_put(rt: &impl Abort, found: Option<Msg>) -> Msg
    ensures found { found ≡ Some result }
    ensures put { has_words (msg_content result) ≡ true }
{
    let put = found.expect(rt, "the answer is there");
    let body = put.body_words().expect(rt, "it brings words");
    assert!(rt; put.header_word() == 8);
    assert!(rt; body.get(0) == 0);
    put
}

fn no_more(rt: &impl Abort, found: Option<Msg>)
    ensures { found ≡ None }
{
    if found.is_some() {
        panic!(rt; "the cell is freed");
    }
}

fn one_moved(rt: &impl Abort, moved: u32)
    ensures { moved ≡ 1 }
{
    if moved != 1 {
        panic!(rt; "the cell is empty");
    }
}

fn put_out(rt: &impl Abort, out: &mut Outbox, dst: u32, m: Msg)
    requires { dst < out.old.sizes.nodes }
    ensures { out.new ≡ with_waiting out.old dst (msg_class m) (waiting out.old dst (msg_class m) ++ m ∷ []) }
{
    match out.push(dst, m) {
        Ok(()) => {}
        Err(_) => panic!(rt; "the outbox has room"),
    }
}

// Node 1 issues its load, and hands its request over.
fn ask(rt: &impl Abort, t: &LaneTable, one: &mut NodeSeat, out: &mut Outbox)
    requires table { t.now.setup ≡ small_setup }
    requires seat { IsSeatOf t.now one.old }
    requires part { one.old.part ≡ part_at_start small_sizes 1 (a_load ∷ []) }
    requires out { out.old ≡ empty_box small_sizes }
    ensures seat { IsSeatOf t.now one.new }
    ensures asked { HasAsked one.new.part }
{
    assert!(rt; one.ticket(t, Event::Issue { node: 1 }) == 0);
    put_out(rt, out, 0, Msg::Get { line: 0 });
    one_moved(rt, one.flush(t, 0, Class::Request, out));
}

// Node 0 takes the request, and frees its cell.
fn take_request(rt: &impl Abort, t: &LaneTable, zero: &mut NodeSeat)
    requires table { t.now.setup ≡ small_setup }
    requires seat { IsSeatOf t.now zero.old }
    requires part { zero.old.part ≡ part_at_start small_sizes 0 [] }
    ensures seat { IsSeatOf t.now zero.new }
    ensures answers { unflushed zero.new.part 1 Replies ≡ msg.Put 0 (0 ∷ []) ∷ [] }
{
    the_get(rt, zero.look(t, 1, Class::Request));
    let take = Event::Take {
        src: 1,
        dst: 0,
        class: Class::Request,
        victim: None,
    };
    assert!(rt; zero.ticket(t, take) == 1);
    zero.clear(t, 1, Class::Request);
    no_more(rt, zero.look(t, 1, Class::Request));
}

// Node 0 hands its answer over.
fn answer(rt: &impl Abort, t: &LaneTable, zero: &mut NodeSeat, out: &mut Outbox)
    requires table { t.now.setup ≡ small_setup }
    requires seat { IsSeatOf t.now zero.old }
    requires answers { unflushed zero.old.part 1 Replies ≡ msg.Put 0 (0 ∷ []) ∷ [] }
    requires out { out.old ≡ empty_box small_sizes }
    ensures seat { IsSeatOf t.now zero.new }
{
    let put = Msg::Put {
        line: 0,
        body: Body::zeros(1),
    };
    put_out(rt, out, 1, put);
    one_moved(rt, zero.flush(t, 1, Class::Reply, out));
    assert!(rt; zero.flush(t, 1, Class::Reply, out) == 0);
    assert!(rt; !zero.space(t, 1, Class::Reply));
}

// Node 1 takes the answer.
fn load(rt: &impl Abort, t: &LaneTable, one: &mut NodeSeat)
    requires table { t.now.setup ≡ small_setup }
    requires seat { IsSeatOf t.now one.old }
    requires asked { HasAsked one.old.part }
    ensures seat { IsSeatOf t.now one.new }
{
    the_put(rt, one.look(t, 0, Class::Reply));
    let take = Event::Take {
        src: 0,
        dst: 1,
        class: Class::Reply,
        victim: None,
    };
    assert!(rt; one.ticket(t, take) == 2);
    one.clear(t, 0, Class::Reply);
}

// How many tickets were drawn when both seats are back, in either order.
fn finished(alloc: Global, t: LaneTable, first: NodeSeat, second: NodeSeat) -> Result<u64, Fail>
    requires table { t.setup ≡ small_setup }
    requires first { IsSeatOf t first }
    requires second { IsSeatOf t second }
{
    let mut seats = Vec::new(alloc);
    seats.push(first)?;
    seats.push(second)?;
    Ok(t.finish(seats))
}

#[test]
fn one_load(rt: HostRuntime) -> Result<(), Fail> {
    let (t, mut zero, mut one) = seated(&rt, rt.alloc())?;
    let cfg = smallest(&rt);
    ask(&rt, &t, &mut one, &mut Outbox::new(rt.alloc(), cfg)?);
    take_request(&rt, &t, &mut zero);
    answer(&rt, &t, &mut zero, &mut Outbox::new(rt.alloc(), cfg)?);
    load(&rt, &t, &mut one);
    assert!(rt; finished(rt.alloc(), t, zero, one)? == 3);
    Ok(())
}

// Node 1's seat, after it has asked.
fn asks(rt: &impl Abort, t: &LaneTable, mut one: NodeSeat, mut out: Outbox) -> NodeSeat
    requires table { t.now.setup ≡ small_setup }
    requires seat { IsSeatOf t.now one }
    requires part { one.part ≡ part_at_start small_sizes 1 (a_load ∷ []) }
    requires out { out ≡ empty_box small_sizes }
    ensures seat { IsSeatOf t.now result }
{
    ask(rt, t, &mut one, &mut out);
    one
}

// Node 0's seat, after it has looked at its lane of requests a number of times.
fn looks(t: &LaneTable, mut zero: NodeSeat) -> NodeSeat
    requires table { t.now.setup ≡ small_setup }
    requires seat { IsSeatOf t.now zero }
    requires ready { taken_from zero.part 1 Requests ≡ cleared_from zero.part 1 Requests }
    ensures seat { IsSeatOf t.now result }
    ensures ready { taken_from result.part 1 Requests ≡ cleared_from result.part 1 Requests }
{
    for _ in 0..100 {
        zero.look(t, 1, Class::Request);
    }
    zero
}

#[test]
fn two_threads(rt: HostRuntime) -> Result<(), Fail> {
    let (t, zero, one) = seated(&rt, rt.alloc())?;
    let out = Outbox::new(rt.alloc(), smallest(&rt))?;
    let (one, mut zero) = join(&rt, || asks(&rt, &t, one, out), || looks(&t, zero));
    the_get(&rt, zero.look(&t, 1, Class::Request));
    assert!(rt; finished(rt.alloc(), t, one, zero)? == 1);
    Ok(())
}
