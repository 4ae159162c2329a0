// The fields of a half, by shifts and masks, and halves made of them (R6.1 to R6.3).
ghost use Rattle.std.specs.Prelude.{◌≡◌, ◌<◌, ◌-◌};
ghost use Rattle.half.specs.Format.{negative, exponent_field, fraction_field, is_finite, is_infinite, is_nan, is_signalling, is_zero};
ghost use Rattle.half.specs.Format.{is_subnormal, significand, units, with_sign, quiet};
ghost use Rattle.half.specs.Work.{scale};

pub fn sign_of(h: u16) -> bool
    ensures { result ≡ negative h }
{
    h >> 15 == 1
}

pub fn exponent_of(h: u16) -> u16
    ensures { result ≡ exponent_field h }
{
    (h >> 10) & 31
}

pub fn fraction_of(h: u16) -> u16
    ensures { result ≡ fraction_field h }
{
    h & 1023
}

pub fn finite(h: u16) -> bool
    ensures { result ≡ is_finite h }
{
    exponent_of(h) != 31
}

pub fn infinite(h: u16) -> bool
    ensures { result ≡ is_infinite h }
{
    (exponent_of(h) == 31) & (fraction_of(h) == 0)
}

pub fn nan(h: u16) -> bool
    ensures { result ≡ is_nan h }
{
    0x7C00 < h % 0x8000
}

pub fn signalling(h: u16) -> bool
    ensures { result ≡ is_signalling h }
{
    nan(h) & (fraction_of(h) < 512)
}

pub fn zero(h: u16) -> bool
    ensures { result ≡ is_zero h }
{
    (exponent_of(h) == 0) & (fraction_of(h) == 0)
}

pub fn subnormal(h: u16) -> bool
    ensures { result ≡ is_subnormal h }
{
    (h % 0x8000 < 0x400) & (h % 0x8000 != 0)
}

pub fn significand_of(h: u16) -> u64
    ensures { result ≡ significand h }
{
    let f = fraction_of(h) as u64;
    if exponent_of(h) == 0 { f } else { 1024 + f }
}

// How far the exponent field lifts the significand above the smallest halves.
pub fn lift_of(h: u16) -> u16
    ensures { result ≡ exponent_field h - 1 }
{
    let e = exponent_of(h);
    if e == 0 { 0 } else { e - 1 }
}

// The unbiased exponent of the significand's lowest bit.
pub fn scale_of(h: u16) -> i32
    ensures { result ≡ scale h }
{
    lift_of(h) as i32 - 24
}

// The magnitude times 2^24.
pub fn magnitude(h: u16) -> u64
    ensures { result ≡ units h }
{
    significand_of(h) << lift_of(h)
}

pub fn with_sign(neg: bool, m: u16) -> u16
    requires { m < 32768 }
    ensures { result ≡ with_sign neg m }
{
    if neg { 0x8000 + m } else { m }
}

pub fn quieted(h: u16) -> u16
    ensures { result ≡ quiet h }
{
    h | 512
}
