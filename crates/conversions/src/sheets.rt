//! `sheet`: the sheet of an upload, and the upload of a sheet.

use host::failure::Failure;
use host::{source, written};
use refusal::{Mode, Refusal};
use std::alloc::Global;
use std::io::Write;
use upload::Form;
use wording::Grouped;

/// Prints the sheet of an upload.
pub fn export<W: Write>(
    rt: &HostRuntime,
    file: &str,
    form: Option<Form>,
    out: &mut W,
) -> Result<(), Failure> {
    let alloc = rt.alloc();
    let source = source::read(rt, file, form, Mode::Present)?;
    let upload = source.upload();
    let mut text = room(alloc, upload.path, sheet::export(upload.bytes, &mut []))?;
    match sheet::export(upload.bytes, &mut text) {
        Ok(_) => Ok(out.write_all(text.as_slice())?),
        Err(why) => Err(refused(alloc, upload.path, why)),
    }
}

/// Writes the upload of a sheet to a path where nothing stands.
pub fn import(rt: &HostRuntime, file: &str, to: &str) -> Result<(), Failure> {
    let alloc = rt.alloc();
    written::check_free(rt, "sheet import", to, file)?;
    let text = source::read_text(rt, file)?;
    let path = source::shown(file);
    let mut upload = room(alloc, path, sheet_import::import(text.as_slice(), &mut []))?;
    match sheet_import::import(text.as_slice(), &mut upload) {
        Ok(_) => written::write(rt, to, upload.as_slice()),
        Err(why) => Err(refused(alloc, path, why)),
    }
}

// Room for what is to be written, by what is answered where none is lent.
fn room(alloc: Global, path: &str, asked: Result<usize, Refusal>) -> Result<Vec<u8>, Failure> {
    match asked {
        Ok(length) => Ok(vec![in alloc; 0; length]?),
        Err(Refusal::OutputTooSmall { needed, .. }) => Ok(vec![in alloc; 0; needed]?),
        Err(why) => Err(refused(alloc, path, why)),
    }
}

// A refusal: of a row of another shape with what it should be.
fn refused(alloc: Global, path: &str, why: Refusal) -> Failure {
    match why {
        Refusal::BadSheet { row: 1, .. } => Failure::of_refusal(format!(in alloc;
            "{path}: refusal 18, bad sheet: its first row is not the header group,offset,size,type id,flags,high,name,type,comment"
        )),
        Refusal::BadSheet { row, column: 0 } => {
            let row = Grouped(row);
            Failure::of_refusal(format!(in alloc;
                "{path}: refusal 18, bad sheet: row {row} is not nine cells between commas"
            ))
        }
        why => Failure::refused(alloc, path, &why),
    }
}
