// Which line of which file is spoken of.
use output::Output;
use std::fmt::Write;

// The file's name stands here where there are several.
#[derive(Clone, Copy)]
pub struct Place<'a> {
    pub name: Option<&'a [u8]>,
    pub number: u64,
}

// A name in any encoding stays as it is; what could break a row is shown as `?`.
fn name_byte(b: u8) -> u8 {
    match b {
        0..=31 | 127 => b'?',
        _ => b,
    }
}

impl Place<'_> {
    pub fn put_name(&self, out: &mut Output, behind: u8) {
        let Some(name) = self.name else {
            return;
        };
        for byte in name {
            out.put(name_byte(*byte));
        }
        out.put(behind);
    }

    // The front of a row.
    pub fn put_columns(&self, out: &mut Output) {
        self.put_name(out, b'\t');
        let _ = write!(out, "{}\t", self.number);
    }

    // The front of a block.
    pub fn put_heading(&self, out: &mut Output) {
        self.put_name(out, b':');
        let _ = write!(out, "{}: ", self.number);
    }
}
