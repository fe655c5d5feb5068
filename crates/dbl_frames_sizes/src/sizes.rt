ghost use Rattle.std.specs.Prelude.{◌≡◌, ◌≤◌, length, take};
ghost use Rattle.std.specs.Int.{w32, from_be_bytes};
ghost use Rattle.dbl_frames_sizes.specs.Sizes.{is_length, wanted_size};

// The lengths that a frame may declare: of a content of one byte, and of XLogData with a payload of
// 16 MiB.
const LEAST_LENGTH: u32 = 5;

const GREATEST_LENGTH: u32 = 16_777_245;

// The number of bytes of a head.
const HEAD: usize = 6;

/// The big-endian Int32 at the front.
pub fn read_int32(bytes: &[u8]) -> u32
    requires { 4 ≤ length bytes.now }
    ensures { result ≡ from_be_bytes w32 (take 4 bytes.now) }
{
    u32::from_be_bytes(*bytes.first_chunk::<4>().unwrap())
}

/// Whether a frame may declare this length, which counts its own four bytes and the content.
pub fn is_length(length: u32) -> bool
    ensures { result ≡ is_length length }
{
    LEAST_LENGTH <= length && length <= GREATEST_LENGTH
}

/// The number of bytes of the frame at the front, or of a head if that isn't there yet.
#[tactic(auto, unfolding(crate::specs::Sizes::wanted_size))]
pub fn measure_frame(bytes: &[u8]) -> usize
    ensures { result ≡ wanted_size bytes.now }
{
    if bytes.len() < HEAD {
        return HEAD;
    }
    read_int32(bytes.split_at(1).1) as usize + 1
}
