/// Why octets or a text are no name.
#[derive(Clone, Copy, Debug, PartialEq, Eq)]
pub enum NameRefusal {
    /// A label has more than 63 bytes: at its length octet, or at its first byte in text.
    LabelTooLong,
    /// The wire form passes 255 octets: at the length octet of the label that passes, or at its first byte in text.
    NameTooLong,
    /// A length octet of 192 or more, as a compression pointer has (RFC 1035 4.1.4): at that octet.
    Compressed,
    /// The octets end before the name: at their length.
    Short,
    /// A label without a byte in text: where its first byte would stand.
    EmptyLabel,
    /// A backslash that no three digits of a byte's value follow and no other shown byte: at the backslash.
    BadEscape,
    /// A raw byte outside 0x21 to 0x7E: at that byte.
    BadByte,
}
