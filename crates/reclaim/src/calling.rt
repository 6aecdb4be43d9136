//! Calling a line in.

ghost use Rattle.std.specs.Prelude.{◌≡◌, ◌<◌, ◌/◌, ◌*◌, ◌+◌, option_map, true, Ok, Err, OnOk, OnErr, IfOk, IfSome, IsNone, MatchResult, ◌⊎◌};
ghost use Rattle.line_map.specs.Sizes.{home_of};
ghost use Rattle.op_model.specs.Nodes.{count};
ghost use Rattle.op_model.specs.Lines.{LineShare};
ghost use Rattle.op_model.specs.Tables.Processor.{reclaim as reclaim_row, call_in, holds_link as holds_link_in};
ghost use Rattle.op_model.specs.Shares.{Copies};
ghost use Rattle.op_model.specs.Events.Node.{permit};
ghost use Rattle.cpu_cache.specs.Processors.{ProcView};
ghost use Rattle.dir_header.specs.Sharers.{free_in, Unlinked};
ghost use Rattle.dir_header.specs.HomeSides.{header_at, room_in};
ghost use Rattle.node_share.specs.Parts.{share_of, DoesRow, HasRoom, AreCopies};

use dir_header::{Grantee, HomeSide, Sharers, Wait};
use msg_words::Sends;
use node_share::{is_full, is_idle, send_invs};
use op_model::Cause;

/// Whether the copies of a line can be called in, or the first cause why not: its list holds no link, it is pending, or no more lines may be.
pub fn can_begin<D: Sharers>(home: &HomeSide<D>, line: u32) -> Result<(), Cause>
    requires { home_of home.now.sizes line ≡ home.now.node }
    ensures { (share : LineShare) → share.header ≡ header_at home.now line → result ≡ permit (reclaim_row (room_in home.now) share) }
{
    if !holds_link(home, line) {
        return Err(Cause::NoLinks);
    }
    if !is_idle(home.header(line)) {
        return Err(Cause::LinePending);
    }
    if is_full(home) {
        return Err(Cause::BudgetFull);
    }
    Ok(())
}

/// Calls all copies of a line in, but the home's own. Answers how many acknowledgements are due.
pub fn begin<D: Sharers>(home: &mut HomeSide<D>, line: u32, out: &mut Sends) -> Result<u32, Cause>
    requires line { home_of home.old.sizes line ≡ home.old.node }
    requires room { HasRoom out.old home.old.sizes.nodes }
    ensures done { OnOk result ((proc : ProcView) (copies : Copies) → AreCopies copies → DoesRow home.old.sizes home.old.node (share_of proc copies home.old.headers) (share_of proc copies home.new.headers) out.old out.new line call_in) }
    ensures allowed { MatchResult result
        (λ acks. (share : LineShare) → share.header ≡ header_at home.old line → reclaim_row (room_in home.old) share ≡ Ok (call_in share))
        (λ cause. (share : LineShare) → share.header ≡ header_at home.old line → reclaim_row (room_in home.old) share ≡ Err cause) }
    ensures acks { IfOk result (λ acks. acks ≡ count (header_at home.old line).list) }
    ensures home { home.new ≡ record home.old { dir = home.new.dir; headers = home.new.headers } }
    ensures err_home { OnErr result (home.new ≡ home.old) }
    ensures err_out { OnErr result (out.new ≡ out.old) }
{
    can_begin(home, line)?;
    let _ = home.make_pending(line, Wait::Invalidate(Grantee::Nobody));
    send_invs(home, line, out);
    Ok(home.header(line).acks)
}

/// Whether the list of a line holds a link.
pub fn holds_link<D: Sharers>(home: &HomeSide<D>, line: u32) -> bool
    requires { home_of home.now.sizes line ≡ home.now.node }
    ensures { result ≡ holds_link_in (room_in home.now) (header_at home.now line) }
{
    let m = line % home.cfg().lines();
    home.dir().holds(m) > 0
}

/// The line of this home in whose list a link stands, found from the link's number. There may be none only where a link is free, or where lists cost no links.
pub fn by_link<D: Sharers>(home: &HomeSide<D>, link: u32) -> Option<u32>
    requires { link < home.now.sizes.links }
    ensures found { result ≡ option_map (λ m. home.now.node * home.now.sizes.lines + m) (D.link_line home.now.dir link) }
    ensures line { IfSome result (λ line. (home_of home.now.sizes line ≡ home.now.node) × (holds_link_in (room_in home.now) (header_at home.now line) ≡ true)) }
    ensures free { IsNone result → (0 < free_in (D.directory home.now.dir)) ⊎ (home.now.charge ≡ Unlinked) }
{
    let lines = home.cfg().lines();
    let m = home.dir().line_of_link(link)?;
    Some(home.node() * lines + m)
}

/// Where fewer links than this are free, a home by itself calls a line in.
pub fn low_water(links: u32) -> u32
    ensures { result ≡ links / 8 }
{
    links / 8
}
