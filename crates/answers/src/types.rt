// Data types, read whole: their array records and all their members.
use crate::case::{Case, refused};
use crate::fields;
use data_type::AdsDataTypeInfo;
use data_type::array::ArrayInfos;
use data_type::members::Member;
use std::alloc::Global;
use std::io;
use std::io::Write;

fn member<W: Write>(member: &Member<'_>, out: &mut W) -> io::Result<()> {
    let length = member.own.len();
    let depth = member.position.depth;
    let offset = member.position.offset;
    write!(out, " {length} {offset}")?;
    for place in member.position.path.iter().take(depth.saturating_sub(1)) {
        write!(out, "/{place}")?;
    }
    Ok(())
}

fn arrays<W: Write>(all: ArrayInfos<'_>, out: &mut W) -> io::Result<()> {
    let count = all.count;
    write!(out, " {count}")?;
    let mut rest = all;
    for _ in 0..count {
        if let Some(array) = rest.next() {
            let lower = array.lower_bound;
            let elements = array.elements;
            write!(out, " {lower} {elements}")?;
        }
    }
    Ok(())
}

fn record<W: Write>(info: &AdsDataTypeInfo<'_>, out: &mut W) -> io::Result<()> {
    fields::record(&info.field, out)?;
    arrays(info.arrays, out)?;
    let items = info.sub_items.count;
    let members = info.member_count;
    write!(out, " {items} {members}")?;
    for one in info.members() {
        member(&one, out)?;
    }
    Ok(())
}

pub fn direct<W: Write>(case: &Case, out: &mut W) -> io::Result<()> {
    match walk::parse::<AdsDataTypeInfo>(case.bytes(1), case.mode(0)) {
        Ok(info) => record(&info, out),
        Err(why) => refused(why, out),
    }
}

/// Place, depth and offset of all members in so many slots, and what that left in each.
pub fn list<W: Write>(case: &Case, alloc: Global, out: &mut W) -> io::Result<()> {
    let mut lent = vec![in alloc; u64::MAX; case.number(1) as usize]?;
    match data_type::list::list(case.bytes(2), case.mode(0), &mut lent) {
        Ok(written) => write!(out, " ok {written}")?,
        Err(why) => refused(why, out)?,
    }
    for slot in &lent {
        if *slot == u64::MAX {
            write!(out, " -")?;
        } else {
            write!(out, " {slot}")?;
        }
    }
    Ok(())
}
