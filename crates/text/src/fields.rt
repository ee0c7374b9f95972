// The fields of a record, and words compared: `same` of specs/Ascii is `==`.
ghost use Rattle.std.specs.Prelude.{◌≡◌, ◌+◌, ◌≤◌, length, drop};
ghost use Rattle.text.specs.Ascii.{same as same_text};
ghost use Rattle.text.specs.Records.{up_to, before};

fn up_to(s: &[u8], mark: u8) -> usize
    ensures bytes { result ≡ up_to mark s.now }
    ensures within { result ≤ length s.now }
{
    s.iter().take_while(|b| **b != mark).count()
}

// The place of the first comma from `from` on, or the place past the record where there is none.
pub fn end_of(s: &[u8], from: usize) -> usize
    requires { from ≤ length s.now }
    ensures { (result ≡ from + before (drop from s.now)) × (from ≤ result) × (result ≤ length s.now) }
{
    from + up_to(&s[from..], b',')
}

pub fn same(s: &[u8], t: &[u8]) -> bool
    ensures { result ≡ same_text s.now t.now }
{
    s == t
}
