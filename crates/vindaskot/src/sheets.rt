// The sheet of an upload of symbols, and the upload of a sheet. An upload is read in the present mode.
ghost use Rattle.told.specs.Told.{WritesTold};
ghost use Rattle.sheet.specs.Export.{exporting};
ghost use Rattle.sheet_import.specs.Import.{importing};

#[unsafe(no_mangle)]
pub extern "C" fn vindaskot_sheet_export(bytes: &[u8], out: &mut [u8], answer: &mut [u64; 2]) -> u32
    ensures { WritesTold (exporting bytes.entry) out.old out.new result answer.new }
{
    told::number(sheet::export(bytes, out), answer)
}

#[unsafe(no_mangle)]
pub extern "C" fn vindaskot_sheet_import(sheet: &[u8], out: &mut [u8], answer: &mut [u64; 2]) -> u32
    ensures { WritesTold (importing sheet.entry) out.old out.new result answer.new }
{
    told::number(sheet_import::import(sheet, out), answer)
}
