//! Program images, and their parts.
ghost use Rattle.std.specs.Prelude.{◌≡◌, ◌<◌, ◌^◌, length, option_map};
ghost use Rattle.std.specs.Int.{w32, from_le_bytes};
ghost use Rattle.sbpf_verify.specs.Images.{image_in};
ghost use Rattle.sbpf_verify.specs.ImageViews.{image_view};

/// The first bytes of a program image.
const MAGIC: [u8; 8] = *b"SBPFIMG1";

/// The parts of a program image, where they are in its bytes.
#[derive(Clone, Copy, PartialEq, Eq)]
pub struct ImageSlices<'a> {
    pub text: &'a [u8],
    pub constants: &'a [u8],
}

/// A number of four bytes, the lowest first.
fn number_of(field: &[u8]) -> usize
    requires { length field.now ≡ 4 }
    ensures value { result ≡ from_le_bytes w32 field.now }
    ensures below { result < 2 ^ 32 }
{
    u32::from_le_bytes([field[0], field[1], field[2], field[3]]) as usize
}

/// The parts of a program image. None exactly where the bytes are no image.
pub fn read_image(bytes: &[u8]) -> Option<ImageSlices<'_>>
    ensures { option_map image_view result ≡ image_in bytes.now }
{
    if bytes.len() < 16 {
        return None;
    }
    if !bytes.starts_with(&MAGIC) {
        return None;
    }
    let end = 16 + 8 * number_of(&bytes[8..12]);
    if bytes.len() != end + number_of(&bytes[12..16]) {
        return None;
    }
    Some(ImageSlices {
        text: &bytes[16..end],
        constants: &bytes[end..],
    })
}
