use crate::disks::Place;
use crate::words::named_number;

/// What is changed in turn, where a run is made more than once.
#[derive(Clone, Copy)]
pub enum Sweep {
    /// The disk has so many of its first bytes, from none of them on up to all but one.
    Cut { place: Place },
    /// The lowest bit of one byte of the disk is turned, of the first byte first.
    Byte { place: Place },
    /// The same, of which only the statuses are written.
    Bit { place: Place },
    /// The same with this value in place of the byte.
    Fill { place: Place, byte: u8 },
    /// A read of the input fails, the first one, the second and so on, up to the one that isn't
    /// made.
    Read,
    /// The same of the writes to the output.
    Write,
    /// The disk passes so many calls, from none on up to this number, and then fails. After each
    /// run the same one is made without a fuse, on the disks as the first one left them.
    Fuse { place: Place, most: u64 },
    /// The same of a session, up to the fuse that stops nothing, and the work is ended after each.
    Stop { place: Place },
}

impl Sweep {
    /// What is changed in turn, of which disk, and for a fuse its greatest number or the value of a byte.
    pub fn read(rest: &str) -> Option<Sweep> {
        match rest {
            "read" => return Some(Sweep::Read),
            "write" => return Some(Sweep::Write),
            _ => {}
        }
        let (what, rest) = rest.split_once(' ')?;
        if let Some((name, number)) = named_number(rest) {
            return Sweep::numbered(what, Place::named(name)?, number);
        }
        let place = Place::named(rest)?;
        match what {
            "cut" => Some(Sweep::Cut { place }),
            "byte" => Some(Sweep::Byte { place }),
            "bit" => Some(Sweep::Bit { place }),
            "stop" => Some(Sweep::Stop { place }),
            _ => None,
        }
    }

    fn numbered(what: &str, place: Place, number: u64) -> Option<Sweep> {
        match what {
            "fuse" => Some(Sweep::Fuse {
                place,
                most: number,
            }),
            "fill" => Some(Sweep::Fill {
                place,
                byte: u8::try_from(number).ok()?,
            }),
            _ => None,
        }
    }
}
