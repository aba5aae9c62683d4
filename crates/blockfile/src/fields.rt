// The fields that a record may have, and their values. An absent field has none.
ghost use Rattle.std.specs.Prelude.{◌≡◌, ◌%◌, ◌/◌, ◌<◌, ◌==◌};
ghost use Rattle.blockfile.specs.Parts.{field_len};

use crate::records::{
    ARC_MAPS, EARLY_LIMIT_BIT, HEAD_BIT, KIND_BIT, KIND_NUMBER_LEN, LATE_LIMIT_BIT, LAUNCH_BIT,
    LAUNCH_LEN, LIMIT_LEN, NET_MAPS, NET_NUMBER_LEN, POINT_LEN, TAIL_BIT, TRANSITION_BIT,
    TRANSITION_LEN,
};
use models::point::Point;
use paths::blocks::{Launch, Net};

// A field of a fixed length, and the bit that announces it: one of the eight of a map.
#[derive(Clone, Copy)]
pub struct Field {
    bit: u8,
    len: usize,
    ghost bit_stands: { 0 < bit },
    ghost bit_fits: { 128 % bit ≡ 0 },
}

// The fields of a net, and the bits that they have.
pub const LAUNCH: Field = Field {
    bit: LAUNCH_BIT,
    len: LAUNCH_LEN,
};

pub const TRANSITION: Field = Field {
    bit: TRANSITION_BIT,
    len: TRANSITION_LEN,
};

pub const LATE_LIMIT: Field = Field {
    bit: LATE_LIMIT_BIT,
    len: LIMIT_LEN,
};

pub const EARLY_LIMIT: Field = Field {
    bit: EARLY_LIMIT_BIT,
    len: LIMIT_LEN,
};

pub const NET_BITS: u8 = NET_MAPS - 1;

// The same of an arc.
pub const TAIL: Field = Field {
    bit: TAIL_BIT,
    len: NET_NUMBER_LEN,
};

pub const HEAD: Field = Field {
    bit: HEAD_BIT,
    len: NET_NUMBER_LEN,
};

pub const KIND: Field = Field {
    bit: KIND_BIT,
    len: KIND_NUMBER_LEN,
};

pub const ARC_BITS: u8 = ARC_MAPS - 1;

impl Field {
    // Whether a map announces the field.
    pub fn is_in(self, map: u8) -> bool
        ensures { result ≡ (map / self.bit % 2 == 1) }
    {
        map / self.bit % 2 == 1
    }

    // The bytes of the field under a map: none where it is absent.
    pub fn len_in(self, map: u8) -> usize
        ensures { result ≡ field_len map self.bit self.len }
    {
        if self.is_in(map) { self.len } else { 0 }
    }
}

pub fn u8_of(field: &[u8]) -> Option<u8> {
    field.first().copied()
}

// One for each width: `from_le_bytes` is a method of each integer type, and no trait of std has it.
pub fn u16_of(field: &[u8]) -> Option<u16> {
    field.first_chunk().map(|bytes| u16::from_le_bytes(*bytes))
}

pub fn u32_of(field: &[u8]) -> Option<u32> {
    field.first_chunk().map(|bytes| u32::from_le_bytes(*bytes))
}

fn launch_of(time: &[u8], transition: &[u8]) -> Option<Launch> {
    let transition = u16_of(transition).unwrap_or_default();
    u32_of(time).map(|time| Launch { time, transition })
}

pub fn net_of(launch: &[u8], transition: &[u8], late_limit: &[u8], early_limit: &[u8]) -> Net {
    Net {
        launch: launch_of(launch, transition),
        late_limit: u32_of(late_limit),
        early_limit: u32_of(early_limit),
    }
}

// A point by its step, its delay, low byte first, and its output step.
pub fn point_of(bytes: &[u8; POINT_LEN]) -> Point {
    let [step, low, high, output_step] = *bytes;
    Point {
        step,
        delay: u16::from_le_bytes([low, high]),
        output_step,
    }
}
