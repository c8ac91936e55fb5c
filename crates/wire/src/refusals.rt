// The table of refusals: why a byte of a line, a message, a packet or a write is refused. Each has its number.
ghost use Rattle.std.specs.Prelude.{◌≡◌};
ghost use Rattle.wire.specs.Refusals.{number_of};

#[derive(Clone, Copy, Debug, PartialEq, Eq, Hash)]
pub enum Refusal {
    // 7E inside an unfinished frame.
    StartInFrame = 1,
    // 5C followed by other than 3E, 1C or 7E.
    BadEscape = 2,
    // Size below 5 or above 512.
    BadFrameSize = 3,
    // CRC differs.
    CrcDiffers = 4,
    // Major not 1.
    UnknownMajor = 5,
    // Wrapper type not 0 or 128.
    UnknownWrapper = 6,
    // Plain payload below 2 or above 507; encrypted length not 4 + 16n, n 1 to 31.
    BadLength = 7,
    // No session.
    NoSession = 8,
    // Session run out.
    SessionRunOut = 9,
    // Key ID not 0; key ID 0 or level without a held key in this mode.
    NoKey = 10,
    // Validation differs.
    ValidationDiffers = 11,
    // Message size below 2, or n not the least.
    BadMessageSize = 12,
    // Padding not zero.
    PaddingNotZero = 13,
    // Data type not listed.
    UnknownDataType = 14,
    // Plain where encryption is required.
    PlainRefused = 15,
    // Encrypted where plain only.
    EncryptedRefused = 16,
    // Message data of wrong length or field.
    BadMessageData = 17,
    // Control packet length not 5 + size.
    BadPacketLength = 18,
    // Protocol not 5.
    UnknownProtocol = 19,
    // Command not listed.
    UnknownCommand = 20,
    // No mark for this mode.
    NoMarkForMode = 21,
    // No mark for this level.
    NoMarkForLevel = 22,
    // Payload length.
    BadCommandLength = 23,
    // Payload field.
    BadCommandField = 24,
    // Lent room shorter than needed.
    NoRoom = 25,
    // Part out of turn.
    PartOutOfTurn = 26,
    // Message above 500 bytes.
    MessageTooLong = 27,
    // Packet nonce used before.
    NonceUsed = 28,
}

impl Refusal {
    pub fn number(self) -> u8
        ensures { result ≡ number_of self }
    {
        self as u8
    }
}
