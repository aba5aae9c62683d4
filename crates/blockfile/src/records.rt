// The records of a block file.
ghost use Rattle.std.specs.Prelude.{◌≡◌};
ghost use Rattle.blockfile.specs.Parts.{tag_of};

use crate::faults::ReaderFault;

// The bytes before the fields: the tag and the map.
pub const HEADER_LEN: usize = 2;

// The tag of each sort of record.
pub const NET_TAG: u8 = 1;

pub const ARC_TAG: u8 = 2;

pub const KIND_TAG: u8 = 3;

// The bits of a net's map, and the first number past its maps.
pub const LAUNCH_BIT: u8 = 1;

pub const TRANSITION_BIT: u8 = 2;

pub const LATE_LIMIT_BIT: u8 = 4;

pub const EARLY_LIMIT_BIT: u8 = 8;

pub const NET_MAPS: u8 = 16;

// The same of an arc's map.
pub const TAIL_BIT: u8 = 1;

pub const HEAD_BIT: u8 = 2;

pub const KIND_BIT: u8 = 4;

pub const ARC_MAPS: u8 = 8;

// The bytes of each field.
pub const LAUNCH_LEN: usize = 4;

pub const TRANSITION_LEN: usize = 2;

pub const LIMIT_LEN: usize = 4;

pub const NET_NUMBER_LEN: usize = 2;

pub const KIND_NUMBER_LEN: usize = 1;

pub const POINT_LEN: usize = 4;

// The most points of a kind: one for each bit of its map.
pub const MAP_BITS: usize = 8;

// The sort of a record.
#[derive(Clone, Copy, PartialEq, Eq, Debug)]
pub enum Tag {
    Net,
    Arc,
    Kind,
}

impl TryFrom<u8> for Tag {
    type Error = ReaderFault;

    ghost try_from_gives = { λ byte tag. tag ≡ tag_of byte };

    fn try_from(byte: u8) -> Result<Tag, ReaderFault> {
        match byte {
            NET_TAG => Ok(Tag::Net),
            ARC_TAG => Ok(Tag::Arc),
            KIND_TAG => Ok(Tag::Kind),
            _ => Err(ReaderFault::UnknownTag(byte)),
        }
    }
}

// The fields are parts of the file, low byte first.
// One that is absent is an empty part: the length of a part is what tells.
#[derive(Clone, Copy)]
pub enum Record<'a> {
    Net {
        launch: &'a [u8],
        transition: &'a [u8],
        late_limit: &'a [u8],
        early_limit: &'a [u8],
    },
    Arc {
        tail: &'a [u8],
        head: &'a [u8],
        kind: &'a [u8],
    },
    Kind {
        points: &'a [u8],
    },
}
