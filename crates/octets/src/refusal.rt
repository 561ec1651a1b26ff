// The questions of document 01, each with its number: what a call answers where the answer is no. 0 is success.
ghost use Rattle.std.specs.Prelude.{◌≡◌, ◌≤◌};
ghost use Rattle.octets.specs.Refusal.{refusal_number};

#[derive(Clone, Copy, Debug, PartialEq, Eq)]
pub enum Refusal {
    // The line has not 2 to 156 characters, an even number.
    BadLength = 1,
    // A character is none of 0-9, A-F, a-f.
    BadDigit = 2,
    // The call does not know the kind.
    UnknownKind = 3,
    // The fixed part is not whole, or more follows it where there is no block.
    BadSize = 4,
    // The count octet is not 1 to 64.
    BadCount = 5,
    // Not exactly that many octets follow the count.
    BadBlock = 6,
    // A number of a frame is not allowed.
    BadNumber = 7,
    // The state does not allow the request.
    WrongState = 8,
    // No number is left.
    NoNumberLeft = 9,
    // As many blocks wait as may.
    QueueFull = 10,
    // A lent buffer is too small.
    ShortBuffer = 11,
    // A record is not sound, or the log's count is too large.
    Unsound = 12,
    // The log does not hold that frame.
    NoSuchFrame = 13,
    // The log has no place left.
    LogFull = 14,
    // The page is not the one that goes with the record.
    WrongPage = 15,
}

impl Refusal {
    // Its number in document 01.
    pub fn number(self) -> u8
        ensures { (result ≡ refusal_number self) × ((1 ≤ result) × (result ≤ 15)) }
    {
        self as u8
    }
}
