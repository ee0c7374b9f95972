// The record scanner: bytes in, one at a time, and a record out at each CRLF.
ghost use Rattle.std.specs.Prelude.{◌≡◌, ◌≤◌, IfSome, length};
ghost use Rattle.text.specs.Scan.{nothing, fed, ended, cut};

use crate::output::Out;
use std::mem;

// The first 66 bytes of the record under way: one more than it is cut to, for a CR that may turn out to be the first half of its end.
// `cr` says that the last byte of all is a CR.
#[derive(Clone, Copy)]
pub struct Scanner {
    pub line: Out<66>,
    pub cr: bool,
}

impl Scanner {
    pub fn new() -> Self
        ensures { result ≡ nothing }
    {
        Scanner {
            line: Out::new(),
            cr: false,
        }
    }

    // Takes a byte, and answers the record that it ends, cut to 65 bytes.
    pub fn feed(&mut self, b: u8) -> Option<Out<66>>
        ensures answer { result ≡ ended self.old b }
        ensures within { IfSome result (λ text. length text ≤ 65) }
        ensures scanner { self.new ≡ fed self.old b }
    {
        if self.cr && b == b'\n' {
            let mut record = mem::replace(&mut self.line, Out::new());
            record.pop();
            self.cr = false;
            return Some(record);
        }
        self.line.keep(b);
        self.cr = b == b'\r';
        None
    }

    // What has come of the record under way, cut to 65 bytes.
    pub fn rest(&self) -> &[u8]
        ensures bytes { result.now ≡ cut self.now.line }
        ensures within { length result.now ≤ 65 }
    {
        let line = self.line.written();
        if line.len() <= 65 { line } else { &line[..65] }
    }
}
