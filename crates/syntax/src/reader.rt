// Bytes, and how far they were read.
ghost use Rattle.std.specs.Prelude.{◌≤◌, length};

/// Bytes to the end of the whole or of one record, and how far they were read.
#[derive(Drop)]
pub struct Reader<'a> {
    pub bytes: &'a [u8],
    pub at: usize,
    // so that the place of a byte fits in 16 bits
    ghost short: { length bytes.now ≤ 65536 },
    ghost inside: { at ≤ length bytes.now },
}
