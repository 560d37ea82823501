// Whether an upload is in plain form.
ghost use Rattle.told.specs.Told.{Tells, record_told};
ghost use Rattle.plain.specs.Plain.{plain_of};

#[unsafe(no_mangle)]
pub extern "C" fn vindaskot_plain(bytes: &[u8], answer: &mut [u64; 2]) -> u32
    ensures { Tells (record_told (plain_of bytes.entry)) result answer.new }
{
    match plain::check(bytes) {
        Ok(()) => told::tell(told::DONE, 0, 0, answer),
        Err(why) => told::refused(why, answer),
    }
}
