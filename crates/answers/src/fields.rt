// Fields, read.
use crate::case::{Hex, refused};
use crate::records::attributes;
use crate::symbols::guid;
use field::AdsFieldInfo;
use refusal::Mode;
use std::io;
use std::io::Write;

fn numbers<W: Write>(field: &AdsFieldInfo<'_>, out: &mut W) -> io::Result<()> {
    let length = field.length;
    let version = field.version;
    let hash = field.hash_value;
    let type_hash = field.type_hash_value;
    let size = field.size;
    let offset = field.offset;
    let type_id = field.type_id;
    let flags = field.flags.0;
    write!(
        out,
        " ok {length} {version} {hash} {type_hash} {size} {offset} {type_id} {flags}"
    )
}

pub fn record<W: Write>(field: &AdsFieldInfo<'_>, out: &mut W) -> io::Result<()> {
    numbers(field, out)?;
    let name = Hex(field.name);
    let type_name = Hex(field.type_name);
    let comment = Hex(field.comment);
    write!(out, " {name} {type_name} {comment}")?;
    guid(field.guid, out)?;
    attributes(field.attributes, out)
}

pub fn direct<W: Write>(bytes: &[u8], out: &mut W) -> io::Result<()> {
    match walk::parse::<AdsFieldInfo>(bytes, Mode::Present) {
        Ok(field) => record(&field, out),
        Err(why) => refused(why, out),
    }
}
