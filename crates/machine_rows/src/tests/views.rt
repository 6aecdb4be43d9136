//! The whole state and the story of a line, in runs worked by hand.

ghost use Rattle.std.specs.Prelude.{◌≡◌};
ghost use Rattle.op_model.specs.Run.Bounds.{request_bound as requests_at_most, reply_bound as replies_at_most};
ghost use Rattle.lane_queues.specs.LaneStates.{no_messages};

use super::{CALLED_IN, Run, machine_of, play, same_text, step};
use Kind::{Load, Store};
use lane_queues::{Lanes, RingLanes};
use line_map::Machine;
use machine::Machine1;
use op_model::Kind;
use out_space::{reply_bound, request_bound};
use sharer_dir::LinkedDir;
use std::alloc::Global;
use std::process::Abort;
use std::test::Fail;
use time_view::{Story, state_text};

/// A run, its state after so many of its steps, and the story of its line 0, where all steps are made.
struct View {
    run: Run,
    states: &'static [(usize, &'static str)],
    story: Option<&'static str>,
}

const VIEWS: [View; 2] = [
    View {
        run: Run {
            title: "a load whose words are overtaken by an invalidation, and the same load once more",
            sizes: [2, 1, 1, 1, 1, 1, 1],
            ops: &[(1, Load, 0, 0), (0, Store, 0, 9), (1, Load, 0, 0)],
            steps: &[
                "i 1",
                "t 1 0 q -",
                "i 0",
                "t 0 1 q -",
                "t 1 0 r -",
                "t 0 1 r -",
                "i 1",
                "t 1 0 q -",
                "t 0 1 r -",
            ],
        },
        states: &[
            (
                0,
                "flash state 1\nstep 0\nnodes 2\n0 0 -\n1 0 -\ncopies 0\nmemory 0\nheaders 0\nlanes 0\nend\n",
            ),
            (
                3,
                "flash state 1\nstep 3\nnodes 2\n0 0 S 0x0 9\n1 0 L 0x0\ncopies 0\nmemory 0\nheaders 1\n0 - clean inv:me:1 1\nlanes 2\n0 1 q Inv 0\n0 1 r Put 0 0\nend\n",
            ),
            (
                4,
                "flash state 1\nstep 4\nnodes 2\n0 0 S 0x0 9\n1 0 L 0x0 marked\ncopies 0\nmemory 0\nheaders 1\n0 - clean inv:me:1 1\nlanes 2\n0 1 r Put 0 0\n1 0 r InvAck 0\nend\n",
            ),
            (
                9,
                "flash state 1\nstep 9\nnodes 2\n0 1 -\n1 2 -\ncopies 2\n0 0 shared 9\n1 0 shared 9\nmemory 1\n0 9\nheaders 1\n0 local clean idle 1\nlanes 0\nend\n",
            ),
        ],
        story: Some(
            "flash story 1\nline 0\n0 - clean idle -\n2 - clean idle 1\n3 - clean inv:me:1 1\n5 local dirty idle -\n8 local clean idle 1\nsteps 9\nend\n",
        ),
    },
    View {
        run: CALLED_IN,
        states: &[(
            22,
            "flash state 1\nstep 19\nnodes 3\n0 0 -\n1 2 -\n2 2 -\ncopies 2\n1 1 shared 0\n2 1 shared 0\nmemory 0\nheaders 1\n1 - clean idle 1,2\nlanes 0\nend\n",
        )],
        story: None,
    },
];

fn state_of<Q: Lanes>(
    rt: &impl Abort,
    alloc: Global,
    cfg: Machine,
    lanes: Q,
    run: &Run,
    count: usize,
) -> Result<Vec<u8>, Fail>
    requires { Q.meaning lanes ≡ no_messages cfg (requests_at_most cfg) (replies_at_most cfg) }
{
    let m = play(rt, alloc, cfg, lanes, run, count)?;
    Ok(state_text(alloc, &m)?)
}

/// The story of line 0, told of each step that this machine makes.
fn tell<Q: Lanes>(
    rt: &impl Abort,
    alloc: Global,
    m: &mut Machine1<LinkedDir, Q>,
    run: &Run,
) -> Result<Vec<u8>, Fail> {
    let mut story = Story::start(alloc, 0)?;
    for each in run.steps {
        step(rt, alloc, m, run.title, each)?;
        let events = Machine1::event_count(m);
        assert!(rt; story.line() < Machine1::cfg(m).all_lines());
        assert!(rt; story.steps() < events && events - story.steps() == 1);
        story.note(m)?;
    }
    Ok(story.text(alloc)?)
}

fn story_of<Q: Lanes>(
    rt: &impl Abort,
    alloc: Global,
    cfg: Machine,
    lanes: Q,
    run: &Run,
) -> Result<Vec<u8>, Fail>
    requires { Q.meaning lanes ≡ no_messages cfg (requests_at_most cfg) (replies_at_most cfg) }
{
    let mut m = play(rt, alloc, cfg, lanes, run, 0)?;
    tell(rt, alloc, &mut m, run)
}

fn is_text(rt: &impl Abort, title: &str, found: Vec<u8>, wanted: &str) -> Result<(), Fail> {
    let found = String::from_utf8(found)?;
    same_text(rt, title, "text", found.as_str(), wanted);
    Ok(())
}

fn shows(rt: &impl Abort, alloc: Global, view: &View) -> Result<(), Fail> {
    let run = &view.run;
    let cfg = machine_of(run)?;
    for (count, text) in view.states {
        let lanes = RingLanes::new(alloc, cfg, request_bound(&cfg), reply_bound(&cfg))?;
        let state = state_of(rt, alloc, cfg, lanes, run, *count)?;
        is_text(rt, run.title, state, text)?;
    }
    if let Some(text) = view.story {
        let lanes = RingLanes::new(alloc, cfg, request_bound(&cfg), reply_bound(&cfg))?;
        let story = story_of(rt, alloc, cfg, lanes, run)?;
        is_text(rt, run.title, story, text)?;
    }
    Ok(())
}

#[test]
fn views(rt: HostRuntime) -> Result<(), Fail> {
    for view in &VIEWS {
        shows(&rt, rt.alloc(), view)?;
    }
    Ok(())
}
