// The words of a refusal that was told in numbers.
ghost use Rattle.told.specs.Told.{WritesTold};
ghost use Rattle.refusal_text.specs.Told.{writing_text};

#[unsafe(no_mangle)]
pub extern "C" fn vindaskot_refusal_text(
    number: u32,
    expected: usize,
    got: usize,
    out: &mut [u8],
    answer: &mut [u64; 2],
) -> u32
    ensures { WritesTold (writing_text number expected got) out.old out.new result answer.new }
{
    told::number(refusal_text::write_text(number, expected, got, out), answer)
}
