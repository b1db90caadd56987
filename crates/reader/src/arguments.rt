// The reader's arguments. They are gone through twice: first for the options and how many files there are, then file by file.
use std::env::FillError;
use std::rt::Env;

// A path of the most bytes that the system takes.
pub const PATH: usize = 4095;

pub type Path = [u8; PATH];

// An argument's text, or its front where it is longer than a path can be.
#[derive(Clone, Copy)]
pub struct Text<'a> {
    pub bytes: &'a [u8],
    pub is_cut: bool,
}

// Five kinds, and no Option: an unknown option is told, and ends the run.
#[derive(Clone, Copy)]
pub enum Argument {
    Plain,
    NamesFollow,
    Unknown,
    File,
    Input,
}

#[derive(Clone, Copy, Default)]
pub struct Wanted {
    pub plain: bool,
    pub files: usize,
}

// The argument of a number, read into the lent array. None behind the last one.
pub fn take<'a, R: Env>(rt: &R, i: usize, path: &'a mut Path) -> Option<Text<'a>> {
    match rt.arg(i, path) {
        Ok(len) => Some(Text {
            bytes: &path[..len],
            is_cut: false,
        }),
        Err(FillError::TooLong) => Some(Text {
            bytes: path,
            is_cut: true,
        }),
        Err(FillError::NotPresent) => None,
    }
}

impl Argument {
    // Options may stand up to `--`.
    pub fn of(text: &[u8], names_only: bool) -> Argument {
        if names_only {
            return Argument::File;
        }
        match text {
            b"-" => Argument::Input,
            b"--" => Argument::NamesFollow,
            b"--plain" => Argument::Plain,
            [b'-', ..] => Argument::Unknown,
            _ => Argument::File,
        }
    }
}

// None where an option is unknown.
pub fn survey<R: Env>(rt: &R, path: &mut Path) -> Option<Wanted> {
    let mut wanted = Wanted::default();
    let mut names_only = false;
    for i in 1..usize::MAX {
        let Some(text) = take(rt, i, path) else {
            break;
        };
        match Argument::of(text.bytes, names_only) {
            Argument::Plain => wanted.plain = true,
            Argument::NamesFollow => names_only = true,
            Argument::Unknown => return None,
            Argument::File | Argument::Input => wanted.files = wanted.files.saturating_add(1),
        }
    }
    Some(wanted)
}
