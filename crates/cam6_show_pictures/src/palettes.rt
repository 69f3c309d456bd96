//! The lights of the sixteen colours, as a word and by default.
ghost use Rattle.std.specs.Prelude.{◌≡◌, ◌<◌, length};
ghost use Rattle.cam6_show_pictures.specs.Palette.{is_parted as is_parted_told, light_at as light_told};
ghost use Rattle.cam6_show_pictures.specs.Palette.{light_said, palette_said};

use crate::looks::Light;
use hex::FromHex;

/// The lights of the colours 0 to 15 if no others are said.
pub const PALETTE: [Light; 16] = [
    Light {
        red: 0x00,
        green: 0x00,
        blue: 0x00,
    },
    Light {
        red: 0xff,
        green: 0xd2,
        blue: 0x3f,
    },
    Light {
        red: 0x3f,
        green: 0xa7,
        blue: 0xff,
    },
    Light {
        red: 0x9b,
        green: 0xe5,
        blue: 0x64,
    },
    Light {
        red: 0xee,
        green: 0x42,
        blue: 0x66,
    },
    Light {
        red: 0xff,
        green: 0x8c,
        blue: 0x42,
    },
    Light {
        red: 0xb3,
        green: 0x88,
        blue: 0xeb,
    },
    Light {
        red: 0xff,
        green: 0xb3,
        blue: 0xc6,
    },
    Light {
        red: 0x3b,
        green: 0xce,
        blue: 0xac,
    },
    Light {
        red: 0xd9,
        green: 0xf2,
        blue: 0xb4,
    },
    Light {
        red: 0x7f,
        green: 0xdb,
        blue: 0xff,
    },
    Light {
        red: 0xe8,
        green: 0xf8,
        blue: 0xff,
    },
    Light {
        red: 0xc9,
        green: 0x8a,
        blue: 0x5b,
    },
    Light {
        red: 0xff,
        green: 0xe8,
        blue: 0xc2,
    },
    Light {
        red: 0xd0,
        green: 0xc8,
        blue: 0xff,
    },
    Light {
        red: 0xff,
        green: 0xff,
        blue: 0xff,
    },
];

/// Returns the lights of the colours 0 to 15 that an argument has: sixteen groups of six
/// hexadecimal digits `RRGGBB`, of either case, with one comma between them. Returns `None` for any
/// other word.
pub fn palette_of(word: &str) -> Option<[Light; 16]>
    ensures { result ≡ palette_said word.now }
{
    lights_of(word.as_bytes())
}

/// Returns the sixteen lights that bytes have as `palette_of` reads them, or `None` for any other
/// bytes.
fn lights_of(text: &[u8]) -> Option<[Light; 16]>
    ensures { result ≡ palette_said text.now }
{
    if text.len() != 111 {
        return None;
    }
    let mut palette = PALETTE;
    for n in 0..16 {
        match light_at(text, n) {
            Some(light) => palette[n] = light,
            None => return None,
        }
    }
    Some(palette)
}

/// Returns the light of colour `n`, from 0 to 15, in the 111 bytes of a palette's text. Returns
/// `None` if six hexadecimal digits don't stand there, or if no comma stands before them.
fn light_at(text: &[u8], n: usize) -> Option<Light>
    requires colour { n < 16 }
    requires word { length text.now ≡ 111 }
    ensures { result ≡ light_told text.now n }
{
    if is_parted(text, n) {
        light_of(&text[7 * n..7 * n + 6])
    } else {
        None
    }
}

/// Returns whether a comma stands before the light of colour `n`, from 0 to 15, in the 111 bytes of
/// a palette's text. It is true for the first light, which needs none.
fn is_parted(text: &[u8], n: usize) -> bool
    requires colour { n < 16 }
    requires word { length text.now ≡ 111 }
    ensures { result ≡ is_parted_told text.now n }
{
    n == 0 || text[7 * n - 1] == b','
}

/// Returns the light of six hexadecimal digits of either case: two each for red, green and blue.
/// Returns `None` for any other bytes.
fn light_of(digits: &[u8]) -> Option<Light>
    ensures { result ≡ light_said digits.now }
{
    match <[u8; 3] as FromHex>::from_hex(digits) {
        Ok(bytes) => Some(Light {
            red: bytes[0],
            green: bytes[1],
            blue: bytes[2],
        }),
        Err(_) => None,
    }
}
