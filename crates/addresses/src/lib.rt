//! `bind`: the addresses of variables, by their paths.
#![tactic(auto)]

use bind_report::{Bound, are_all_bound, json, table};
use data_type::AdsDataTypeInfo;
use host::failure::Failure;
use host::source::windows_1252;
use named::Named;
use report::Upload;
use std::alloc::{AllocError, Global};
use std::io::Write;
use symbol::AdsSymbolInfo;
use wording::InWords;

// Where the entries of an upload start, in the order of their names.
fn by_name<'a, E: Named<'a>>(alloc: Global, upload: &Upload<'a>) -> Result<Vec<u32>, Failure> {
    match ordered::<E>(alloc, upload)? {
        Ok(starts) => Ok(starts),
        Err(why) => Err(Failure::of_upload(alloc, upload, &InWords(&why))),
    }
}

fn ordered<'a, E: Named<'a>>(
    alloc: Global,
    upload: &Upload<'a>,
) -> Result<Result<Vec<u32>, refusal::Refusal>, AllocError> {
    let room = match room::room(upload.bytes.len()) {
        Ok(room) => room,
        Err(why) => return Ok(Err(why)),
    };
    let mut slots = vec![in alloc; 0u32; room]?;
    match name_index::build::<E>(upload.bytes, upload.mode, slots.as_mut_slice()) {
        Ok(count) => {
            slots.truncate(count);
            Ok(Ok(slots))
        }
        Err(why) => Ok(Err(why)),
    }
}

// Where two uploads are searched, and by which reading.
#[derive(Clone, Copy)]
struct Searched<'a> {
    symbols: bind::Upload<'a>,
    types: bind::Upload<'a>,
    mode: refusal::Mode,
}

impl<'a> Searched<'a> {
    // Each path with what binding it answers, in their order.
    fn bind_all(self, alloc: Global, paths: &'a [Vec<u8>]) -> Result<Vec<Bound<'a>>, AllocError> {
        let mut bounds = Vec::new(alloc);
        for path in paths {
            let path = path.as_slice();
            let answer = bind::bind(self.symbols, self.types, self.mode, path);
            bounds.push(Bound { path, answer })?;
        }
        Ok(bounds)
    }
}

fn all_in_windows_1252(alloc: Global, paths: &[&str]) -> Result<Vec<Vec<u8>>, Failure> {
    let mut all: Vec<Vec<u8>> = Vec::new(alloc);
    for path in paths {
        let path = windows_1252(alloc, path)?;
        all.push(path).map_err(AllocError::from)?;
    }
    Ok(all)
}

/// A table of the addresses of some paths, or a line of JSON for each, in the order of the paths; whether none was refused.
pub fn bind<W: Write>(
    alloc: Global,
    symbols: &Upload<'_>,
    types: &Upload<'_>,
    paths: &[&str],
    as_json: bool,
    out: &mut W,
) -> Result<bool, Failure> {
    let asked = all_in_windows_1252(alloc, paths)?;
    let symbol_slots = by_name::<AdsSymbolInfo>(alloc, symbols)?;
    let type_slots = by_name::<AdsDataTypeInfo>(alloc, types)?;
    let searched = Searched {
        symbols: bind::Upload {
            bytes: symbols.bytes,
            slots: symbol_slots.as_slice(),
        },
        types: bind::Upload {
            bytes: types.bytes,
            slots: type_slots.as_slice(),
        },
        mode: symbols.mode,
    };
    let bounds = searched.bind_all(alloc, asked.as_slice())?;
    if as_json {
        json::write_lines(bounds.as_slice(), out)?;
    } else {
        table::write(bounds.as_slice(), out)?;
    }
    Ok(are_all_bound(bounds.as_slice()))
}
