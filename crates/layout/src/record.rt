// One 16-byte record, by its parts.
ghost use Rattle.std.specs.Prelude.{◌≡◌};
ghost use Rattle.layout.specs.Encoding.{record_bytes};
ghost use Rattle.layout.specs.Records.{part_at};

// How long a record is.
pub const RECORD_BYTES: usize = 16;

// What a record is of, by its byte 0.
#[derive(Clone, Copy)]
pub enum Tag {
    Leg = 65,
    Place = 83,
}

// Byte 0, byte 1, bytes 2 and 3, and three numbers of four bytes each; numbers stand lowest byte first.
#[derive(Clone, Copy, Default)]
pub struct RawRecord {
    // Stays: a layout may have any byte here and in the next place, and the questions refuse what they may not be.
    pub tag: u8,
    pub flag: u8,
    pub half: u16,
    pub word1: u32,
    pub word2: u32,
    pub word3: u32,
}

impl RawRecord {
    pub fn from_bytes(bytes: &[u8; RECORD_BYTES]) -> RawRecord
        ensures { result ≡ part_at bytes.now 0 }
    {
        let [
            tag,
            flag,
            h0,
            h1,
            a0,
            a1,
            a2,
            a3,
            b0,
            b1,
            b2,
            b3,
            c0,
            c1,
            c2,
            c3,
        ] = *bytes;
        RawRecord {
            tag,
            flag,
            half: u16::from_le_bytes([h0, h1]),
            word1: u32::from_le_bytes([a0, a1, a2, a3]),
            word2: u32::from_le_bytes([b0, b1, b2, b3]),
            word3: u32::from_le_bytes([c0, c1, c2, c3]),
        }
    }

    pub fn to_bytes(self) -> [u8; RECORD_BYTES]
        ensures { result ≡ record_bytes self }
    {
        let [h0, h1] = self.half.to_le_bytes();
        let [a0, a1, a2, a3] = self.word1.to_le_bytes();
        let [b0, b1, b2, b3] = self.word2.to_le_bytes();
        let [c0, c1, c2, c3] = self.word3.to_le_bytes();
        [
            self.tag, self.flag, h0, h1, a0, a1, a2, a3, b0, b1, b2, b3, c0, c1, c2, c3,
        ]
    }
}
