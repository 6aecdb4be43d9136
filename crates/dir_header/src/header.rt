//! Headers of lines, and how a line stands to the links of its home.

ghost use Rattle.std.specs.Prelude.{◌≡◌, ◌-◌, ◌<◌, ◌&&◌, true, if◌then◌else◌};
ghost use Rattle.op_model.specs.Tables.Remote.{is_invalidate};
ghost use Rattle.dir_header.specs.Standings.{standing_of};

use op_model::Wait;

/// A line at its home: whether the home's own cache may hold it, whether memory isn't current, what it waits for, and how many acknowledgements are still due.
#[derive(Clone, Copy, Debug, PartialEq, Eq)]
pub struct Header {
    pub local: bool,
    pub dirty: bool,
    pub wait: Wait,
    pub acks: u32,
}

impl Header {
    /// The header of a line at the start.
    pub(crate) const FIRST: Header = Header {
        local: false,
        dirty: false,
        wait: Wait::Idle,
        acks: 0,
    };
}

/// What a line has to do with links.
#[derive(Clone, Copy, Debug, PartialEq, Eq)]
pub(crate) enum Standing {
    /// Its list holds no link.
    Linkless,
    /// Its list holds a link, and it is idle, so that it can be called in.
    Victim,
    /// Its list holds a link, and it is pending.
    Pending,
}

/// How a line stands that waits so and whose list holds so many links.
pub(crate) fn standing_by(wait: Wait, links: u32) -> Standing
    ensures { result ≡ standing_of wait links }
{
    if links == 0 {
        Standing::Linkless
    } else if wait == Wait::Idle {
        Standing::Victim
    } else {
        Standing::Pending
    }
}

/// The acknowledgements that are due where a line begins to wait so with so many listed nodes.
pub(crate) fn acks_due(wait: Wait, listed: u32) -> u32
    ensures { result ≡ (if is_invalidate wait then listed else 0) }
{
    match wait {
        Wait::Invalidate(_) => listed,
        _ => 0,
    }
}

/// The acknowledgements that are due of a line after a node of its list is asked to go.
pub(crate) fn acks_left(wait: Wait, acks: u32, was_listed: bool) -> u32
    requires { (is_invalidate wait && was_listed) ≡ true → 0 < acks }
    ensures { result ≡ (if is_invalidate wait && was_listed then acks - 1 else acks) }
{
    match wait {
        Wait::Invalidate(_) if was_listed => acks - 1,
        _ => acks,
    }
}
