// The width of an access (1, 2 or 4 bytes) and the values that fit it. See docs/CHIP.md, "Accesses".
// `access`, `device` and `script` use it.
#![tactic(auto)]

ghost use Rattle.std.specs.Prelude.{◌≡◌};
ghost use Rattle.width.specs.Width.{is_width, all_ones, fits_width};

pub fn is_width(width: u32) -> bool
    ensures { result ≡ is_width width }
{
    matches!(width, 1 | 2 | 4)
}

// The largest value of the width. A read with status 1 returns it.
pub fn all_ones(width: u32) -> u32
    ensures { result ≡ all_ones width }
{
    match width {
        1 => 0xFF,
        2 => 0xFFFF,
        _ => 0xFFFF_FFFF,
    }
}

// Does the value fit the width? Each case has the largest value of its width. The last case is width 4; every `u32` fits it. A number that
// is not a width is treated like 4; callers check `is_width` first.
pub fn fits(width: u32, value: u32) -> bool
    ensures { result ≡ fits_width width value }
{
    match width {
        1 => value <= 255,
        2 => value <= 65_535,
        _ => value <= 4_294_967_295,
    }
}
