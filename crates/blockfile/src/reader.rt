// Reading the records of a file one by one: tag, map, and the fields that the map announces.
ghost use Rattle.std.specs.Prelude.{◌≡◌, ◌-◌, length};
ghost use Rattle.std.specs.Iterator.{at_most};
ghost use Rattle.blockfile.specs.Parts.{fields_len, parts_len, PartsFit, Advances, NextRecord};

use crate::faults::{LoadFault, ReaderFault};
use crate::fields::{
    ARC_BITS, EARLY_LIMIT, HEAD, KIND, LATE_LIMIT, LAUNCH, NET_BITS, TAIL, TRANSITION,
};
use crate::records::{HEADER_LEN, POINT_LEN, Record, Tag};

// The first bytes of a record: its tag, and the map that announces its fields.
#[derive(Clone, Copy)]
struct Header {
    tag: Tag,
    map: u8,
}

impl Header {
    // The bytes of the fields.
    fn fields_len(self) -> usize
        ensures { result ≡ fields_len self.tag self.map }
    {
        let Header { tag, map } = self;
        match tag {
            Tag::Net => {
                LAUNCH.len_in(map)
                    + TRANSITION.len_in(map)
                    + LATE_LIMIT.len_in(map)
                    + EARLY_LIMIT.len_in(map)
            }
            Tag::Arc => TAIL.len_in(map) + HEAD.len_in(map) + KIND.len_in(map),
            Tag::Kind => POINT_LEN * map.count_ones() as usize,
        }
    }

    // Refuses a map that the tag does not allow.
    fn check(self) -> Result<(), ReaderFault> {
        let Header { tag, map } = self;
        let known_bits = match tag {
            Tag::Net => NET_BITS,
            Tag::Arc => ARC_BITS,
            Tag::Kind => u8::MAX,
        };
        if map & !known_bits != 0 {
            return Err(ReaderFault::UnknownBit(map));
        }
        if tag == Tag::Net && TRANSITION.is_in(map) && !LAUNCH.is_in(map) {
            return Err(ReaderFault::TransitionWithoutLaunch(map));
        }
        Ok(())
    }

    // The record of these fields, cut apart.
    fn cut<'a>(self, fields: &'a [u8]) -> Record<'a>
        requires { length fields.now ≡ fields_len self.tag self.map }
        ensures fit { PartsFit result }
        ensures whole { parts_len result ≡ length fields.now }
    {
        let Header { tag, map } = self;
        match tag {
            Tag::Net => {
                let (launch, rest) = fields.split_at(LAUNCH.len_in(map));
                let (transition, rest) = rest.split_at(TRANSITION.len_in(map));
                let (late_limit, early_limit) = rest.split_at(LATE_LIMIT.len_in(map));
                Record::Net {
                    launch,
                    transition,
                    late_limit,
                    early_limit,
                }
            }
            Tag::Arc => {
                let (tail, rest) = fields.split_at(TAIL.len_in(map));
                let (head, kind) = rest.split_at(HEAD.len_in(map));
                Record::Arc { tail, head, kind }
            }
            Tag::Kind => Record::Kind { points: fields },
        }
    }
}

// The record that starts at `at`, and where the next one does.
pub fn next_record<'a>(file: &'a [u8], at: usize) -> Result<(Record<'a>, usize), ReaderFault>
    ensures { Advances (length file.now) at result }
{
    let truncated = ReaderFault::Truncated(file.len());
    let rest = file.get(at..).ok_or(truncated)?;
    let (&[tag, map], rest) = rest.split_first_chunk::<HEADER_LEN>().ok_or(truncated)?;
    let tag = Tag::try_from(tag)?;
    let header = Header { tag, map };
    let fields = rest.get(..header.fields_len()).ok_or(truncated)?;
    header.check()?;
    Ok((header.cut(fields), at + HEADER_LEN + fields.len()))
}

// The records of a file, each with its offset; the first that is refused ends them.
#[derive(Drop)]
pub struct Records<'a> {
    file: &'a [u8],
    at: usize,
}

impl<'a> Records<'a> {
    pub fn new(file: &'a [u8]) -> Records<'a>
        ensures file { result.file.now ≡ file.now }
        ensures at { result.at ≡ 0 }
    {
        Records { file, at: 0 }
    }
}

impl<'a> Iterator for Records<'a> {
    type Item = Result<(usize, Record<'a>), LoadFault>;

    ghost next_gives = { NextRecord };

    ghost remaining = { λ s. at_most (length s.file.now - s.at) };

    fn next(&mut self) -> Option<Result<(usize, Record<'a>), LoadFault>> {
        let offset = self.at;
        if offset >= self.file.len() {
            return None;
        }
        match next_record(self.file, offset) {
            Ok((record, next)) => {
                self.at = next;
                Some(Ok((offset, record)))
            }
            // An iterator hands a refusal out as an item, its last.
            Err(fault) => {
                self.at = self.file.len();
                let cause = fault.into();
                Some(Err(LoadFault { offset, cause }))
            }
        }
    }
}
