// The calls that make lines of an upload, and an upload of lines.
ghost use Rattle.captures.specs.Captures.{splitting, joining};
ghost use Rattle.told.specs.Told.{WritesTold};

#[unsafe(no_mangle)]
pub extern "C" fn vindaskot_split_lines(bytes: &[u8], text: &mut [u8], answer: &mut [u64; 2]) -> u32
    ensures { WritesTold (splitting bytes.now) text.old text.new result answer.new }
{
    told::number(captures::split(bytes, text), answer)
}

#[unsafe(no_mangle)]
pub extern "C" fn vindaskot_join_lines(text: &[u8], out: &mut [u8], answer: &mut [u64; 2]) -> u32
    ensures { WritesTold (joining text.now) out.old out.new result answer.new }
{
    told::number(captures::join(text, out), answer)
}
