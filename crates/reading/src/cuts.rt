// Cuts bytes in two at the first byte of a kind.
ghost use Rattle.reading.specs.Parts.{CutAt};

// The bytes before the first mark, and those behind it; no rest where no mark stands.
pub fn cut(bytes: &[u8], mark: u8) -> (&[u8], Option<&[u8]>)
    ensures { CutAt mark bytes.now result.0.now result.1 }
{
    match bytes.iter().position(|byte| *byte == mark) {
        Some(i) => (&bytes[..i], Some(&bytes[i + 1..])),
        None => (bytes, None),
    }
}
