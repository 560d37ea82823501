//! `type`: data types with their members.

use crate::{NotFound, Unfound, is_alike, small};
use data_type::{AdsDataTypeInfo, DataTypes};
use field::AdsFieldInfo;
use host::failure::Failure;
use host::source::windows_1252;
use refusal::{Mode, Refusal};
use report::Upload;
use std::alloc::Global;
use std::io::Write;
use type_report::list;
use type_table::table;
use type_tree::Counts;
use type_tree::node::Node;
use wording::{Grouped, InWords};

/// All data types, or the first of a name.
pub fn print<W: Write>(
    alloc: Global,
    upload: &Upload<'_>,
    name: Option<&str>,
    as_json: bool,
    out: &mut W,
) -> Result<(), Failure> {
    if let Some(name) = name {
        let root = named(alloc, upload, name)?;
        if as_json {
            list::write_type(&root, upload.mode, out)?;
        } else {
            table::write_type(upload, &root, out)?;
        }
        return Ok(());
    }
    let counts = if as_json {
        list::list(upload, out)?
    } else {
        table::list(upload, out)?
    };
    unless_refused(alloc, upload, counts)
}

fn unless_refused(alloc: Global, upload: &Upload<'_>, counts: Counts) -> Result<(), Failure> {
    if counts.refused == 0 {
        return Ok(());
    }
    let (refused, all) = (Grouped(counts.refused), Grouped(counts.all));
    Err(Failure::of_refusal(format!(in alloc; "{upload}: refused entries: {refused} of {all}")))
}

// The first data type of a name.
fn named<'a>(alloc: Global, upload: &Upload<'a>, name: &str) -> Result<Node<'a>, Failure> {
    let asked = windows_1252(alloc, name)?;
    let asked = asked.as_slice();
    match finding::named::<AdsDataTypeInfo>(upload, asked) {
        Ok(found) => Ok(Node::root(found.at, found.entry)),
        Err(Refusal::NameNotFound) => no_type(alloc, upload, asked),
        Err(why) => Err(Failure::of_upload(alloc, upload, &InWords(&why))),
    }
}

fn no_type<'a>(alloc: Global, upload: &Upload<'a>, asked: &[u8]) -> Result<Node<'a>, Failure> {
    let why = Unfound {
        kind: "data type",
        asked,
        why: not_found(alloc, upload, asked)?,
    };
    Err(Failure::of_upload(alloc, upload, &why))
}

// Why no data type has a name: one that has it was refused, for whatever of its members, or one is alike.
fn not_found<'a>(
    alloc: Global,
    upload: &Upload<'a>,
    asked: &[u8],
) -> Result<NotFound<'a>, Failure> {
    if let Some((at, why)) = refused_of_that_name(upload, asked) {
        return Ok(NotFound::Refused { at, why });
    }
    match alike(alloc, upload, asked)? {
        Some(name) => Ok(NotFound::Alike(name)),
        None => Ok(NotFound::Nothing),
    }
}

// The first name that differs in the case of letters alone, accented ones too.
fn alike<'a>(
    alloc: Global,
    upload: &Upload<'a>,
    asked: &[u8],
) -> Result<Option<&'a [u8]>, Failure> {
    let small = small(alloc, asked)?;
    for piece in DataTypes::new(upload.bytes, upload.mode) {
        if let Ok(record) = piece.answer {
            let name = record.field.name;
            if is_alike(alloc, name, &small)? {
                return Ok(Some(name));
            }
        }
    }
    Ok(None)
}

// The first refused entry of a name. A field's reading skips members, so that it has the name of most that are refused.
fn refused_of_that_name(upload: &Upload<'_>, asked: &[u8]) -> Option<(usize, Refusal)> {
    let bytes = upload.bytes;
    for piece in DataTypes::new(bytes, upload.mode) {
        if let Err(why) = piece.answer {
            let from = piece.start.min(bytes.len());
            if let Ok(field) = walk::parse::<AdsFieldInfo>(&bytes[from..], Mode::Present) {
                if field.name.eq_ignore_ascii_case(asked) {
                    return Some((piece.start, why));
                }
            }
        }
    }
    None
}
