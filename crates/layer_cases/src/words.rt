// The numbers of a line as bytes.

// So many words as bytes, if each is one.
pub(crate) fn bytes_of<const N: usize>(words: &[u64]) -> Option<[u8; N]> {
    let mut bytes = [0; N];
    for (byte, &word) in bytes.iter_mut().zip(words) {
        *byte = u8::try_from(word).ok()?;
    }
    Some(bytes)
}
