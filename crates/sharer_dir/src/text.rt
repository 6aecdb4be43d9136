//! The lists and the free list as texts.

ghost use Rattle.std.specs.Prelude.{◌≡◌, ◌++◌, ◌<◌, OnOk, length, flat_map};
ghost use Rattle.link_store.specs.Pools.{chain_of};
ghost use Rattle.sharer_dir.specs.Linked.{head_at};
ghost use Rattle.sharer_dir.specs.Texts.{head_text, link_text, list_text, number_text, free_list_text};

use decimal_text::{put_bytes, put_decimal};
use link_store::Links;
use op_model::NoMemory;

pub(crate) fn put_list(
    out: &mut Vec<u8>,
    links: &Links,
    m: u32,
    head: Option<u32>,
) -> Result<(), NoMemory>
    requires { m < length links.now.chains }
    ensures { OnOk result (out.new.items ≡ out.old.items ++ list_text m head (chain_of links.now m)) }
{
    put_decimal(out, u64::from(m))?;
    put_bytes(out, b" head ")?;
    put_head(out, head)?;
    put_bytes(out, b" links")?;
    put_links(out, links, m)
}

fn put_head(out: &mut Vec<u8>, head: Option<u32>) -> Result<(), NoMemory>
    ensures { OnOk result (out.new.items ≡ out.old.items ++ head_text head) }
{
    match head {
        None => put_bytes(out, b"-"),
        Some(node) => put_decimal(out, u64::from(node)),
    }
}

fn put_links(out: &mut Vec<u8>, links: &Links, m: u32) -> Result<(), NoMemory>
    requires { m < length links.now.chains }
    ensures { OnOk result (out.new.items ≡ out.old.items ++ flat_map link_text (chain_of links.now m)) }
{
    for i in 0..links.len(m) {
        put_link(out, links.link_at(m, i), links.node_at(m, i))?;
    }
    Ok(())
}

fn put_link(out: &mut Vec<u8>, link: u32, node: u32) -> Result<(), NoMemory>
    ensures { OnOk result (out.new.items ≡ out.old.items ++ link_text (link, node)) }
{
    put_bytes(out, b" ")?;
    put_decimal(out, u64::from(link))?;
    put_bytes(out, b":")?;
    put_decimal(out, u64::from(node))
}

pub(crate) fn put_free(out: &mut Vec<u8>, links: &Links) -> Result<(), NoMemory>
    ensures { OnOk result (out.new.items ≡ out.old.items ++ free_list_text links.now.free) }
{
    put_bytes(out, b"free")?;
    put_numbers(out, links)
}

fn put_numbers(out: &mut Vec<u8>, links: &Links) -> Result<(), NoMemory>
    ensures { OnOk result (out.new.items ≡ out.old.items ++ flat_map number_text links.now.free) }
{
    for i in 0..links.free_count() {
        put_bytes(out, b" ")?;
        put_decimal(out, u64::from(links.free_at(i)))?;
    }
    Ok(())
}
