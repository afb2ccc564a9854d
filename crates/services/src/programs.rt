// Texts and rows, the check and the translation under their C names.
ghost use Rattle.std.specs.Prelude.{◌≡◌, length};
ghost use Rattle.language.specs.Filling.{answer, buffer};
ghost use Rattle.language.specs.Translation.{translation};
ghost use Rattle.language.specs.Verdict.{verdict};
ghost use Rattle.language.specs.Alphabet.{ours};
ghost use Rattle.language.specs.Texts.{read_text, write_rows};
ghost use Rattle.packing.specs.Packed.{packed, packed_verdict};

use telling::words::pack;

// Reads a text into rows.
#[unsafe(no_mangle)]
pub extern "C" fn fickle_read_rows(text: &[u8], rows: &mut [u32]) -> u64
    ensures { (result ≡ packed (answer 4 (read_text ours text.now) (length rows.old)))
        × (rows.new ≡ buffer (read_text ours text.now) rows.old) }
{
    pack(reader::read_rows(text, rows).map(|n| n as u64))
}

// Writes rows as text.
#[unsafe(no_mangle)]
pub extern "C" fn fickle_write_text(rows: &[u32], text: &mut [u8]) -> u64
    ensures { (result ≡ packed (answer 1 (write_rows ours rows.now)
        (length text.old)))
        × (text.new ≡ buffer (write_rows ours rows.now) text.old) }
{
    pack(writer::write_text(rows, text).map(|n| n as u64))
}

// Checks rows.
#[unsafe(no_mangle)]
pub extern "C" fn fickle_check_rows(rows: &[u32]) -> u64
    ensures { result ≡ packed_verdict (verdict rows.now) }
{
    pack(checker::check_rows(rows).map(|()| 0))
}

// Translates rows into plain rows.
#[unsafe(no_mangle)]
pub extern "C" fn fickle_translate_rows(rows: &[u32], plain: &mut [u32]) -> u64
    ensures { (result ≡ packed (answer 4 (translation rows.now) (length plain.old)))
        × (plain.new ≡ buffer (translation rows.now) plain.old) }
{
    pack(translator::translate_rows(rows, plain).map(|n| n as u64))
}
