// Plain decimals in.
ghost use Rattle.std.specs.Prelude.{◌≡◌};
ghost use Rattle.text.specs.Decimals.{read, reaches};

// All of `s` as digits, or None where a byte is none or the number passes `most`.
fn scan(s: &[u8], most: u32) -> Option<u32>
    ensures { result ≡ reaches most 0 s.now }
{
    let mut v = 0u64;
    let limit = u64::from(most);
    for b in s {
        if !b.is_ascii_digit() {
            return None;
        }
        v = v * 10 + u64::from(*b - b'0');
        if limit < v {
            return None;
        }
    }
    Some(v as u32)
}

// A plain decimal of at most `most`.
pub fn parse(s: &[u8], most: u32) -> Option<u32>
    ensures { result ≡ read most s.now }
{
    match s {
        [] | [b'0', _, ..] => None,
        _ => scan(s, most),
    }
}
