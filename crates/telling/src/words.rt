// Answers as one number of two words.
ghost use Rattle.std.specs.Prelude.{◌≡◌};
ghost use Rattle.packing.specs.Packed.{refusal, packed};

use language::Refusal;

// Two words of 32 bits as one number.
pub fn two_words(number: u32, line: u32) -> u64
    ensures { result ≡ refusal number line }
{
    u64::from(number) * 4294967296 + u64::from(line)
}

// An answer as one number: a number of what was done, or the refusal.
pub fn pack(answer: Result<u64, Refusal>) -> u64
    ensures { result ≡ packed answer }
{
    match answer {
        Ok(n) => n,
        Err(r) => two_words(r.number, r.line),
    }
}
