// Text on its way to standard output. It is gathered in an array, so that one write moves much of it; a full array is written out where more comes.
#![tactic(auto)]

mod digits;
mod failure;

ghost use Rattle.std.specs.Prelude.{◌≡◌, ℕ, ◌+◌, ◌/◌, ◌%◌, ◌≤◌, List, [], ◌∷◌, ◌++◌, length, true, false};
ghost use Rattle.std.specs.Fmt.{digit_glyph};
ghost use Rattle.output.specs.Digits.{Spells};
ghost use Rattle.output.specs.Gathered.{Gathered, Gathers};

use digits::{hex_digit, spell};
pub use failure::tell_failure;
use std::fmt;
use std::io::{Stderr, Stdout};
use std::marker::Model;

pub const ROOM: usize = 65536;

// Leave to write to standard output, and to say on standard error what failed. It takes no bytes.
#[derive(Clone, Copy)]
pub struct Streams {
    pub out: Stdout,
    pub err: Stderr,
}

impl Streams {
    pub fn of(rt: &HostRuntime) -> Streams {
        Streams {
            out: rt.stdout(),
            err: rt.stderr(),
        }
    }
}

// The first `waiting` bytes of the array are still to be written. Once a write failed, what is put is dropped, so that no part of the output is missing but its
// end. (Not std's `BufWriter`, which gathers on the heap: this project takes memory of a fixed size alone.)
#[derive(Drop)]
pub struct Output {
    streams: Streams,
    buf: [u8; ROOM],
    waiting: usize,
    broken: bool,
}

impl Model for Output {
    ghost use Rattle.std.specs.Prelude.{◌≡◌, ◌≤◌, true, take};
    ghost use Rattle.output.specs.Gathered.{Gathered, gathered_code};

    ghost Value = { Gathered };

    ghost coded = { gathered_code };

    ghost view = { λ o. record { bytes = take o.waiting o.buf; broken = o.broken } };

    ghost invariant = { λ o. (o.waiting ≤ 65536) × (o.broken ≡ true → o.waiting ≡ 0) };
}

impl Output {
    // Nothing waits yet.
    pub fn to(streams: Streams) -> Output
        ensures { result ≡ record { bytes = []; broken = false } }
    {
        Output {
            streams,
            buf: [0; ROOM],
            waiting: 0,
            broken: false,
        }
    }

    pub fn waiting(&self) -> &[u8]
        ensures bytes { result.now ≡ self.now.bytes }
        ensures few { length result.now ≤ 65536 }
        ensures none { self.now.broken ≡ true → result.now ≡ [] }
    {
        &self.buf[..self.waiting]
    }

    // Forgets what waits, and that a write failed.
    pub fn clear(&mut self)
        ensures { self.new ≡ record { bytes = []; broken = false } }
    {
        (self.waiting, self.broken) = (0, false);
    }

    // Writes out what waits. A write that fails is told on standard error, once.
    pub fn flush(&mut self)
        ensures none { self.new.bytes ≡ [] }
        ensures broken { self.old.broken ≡ true → self.new.broken ≡ true }
    {
        if !is_written(self.streams, self.waiting()) {
            self.broken = true;
        }
        self.waiting = 0;
    }

    // Behind what waits. Once a write failed it is dropped.
    fn add(&mut self, text: &[u8])
        requires { length self.old.bytes + length text.now ≤ 65536 }
        ensures { Gathers self.old text.now self.new }
    {
        if self.broken {
            return;
        }
        let end = self.waiting + text.len();
        self.buf[self.waiting..end].copy_from_slice(text);
        self.waiting = end;
    }

    pub fn text(&mut self, text: &[u8])
        ensures { Gathers self.old text.now self.new }
    {
        if text.len() <= ROOM - self.waiting {
            self.add(text);
        } else {
            self.overflow(text);
        }
    }

    // A text that finds no room whole: the array is filled before it is written out.
    fn overflow(&mut self, text: &[u8])
        ensures { Gathers self.old text.now self.new }
    {
        let mut rest = text;
        while ROOM - self.waiting < rest.len() {
            let (front, back) = rest.split_at(ROOM - self.waiting);
            self.add(front);
            self.flush();
            rest = back;
        }
        self.add(rest);
    }

    // One byte behind what waits, stored by itself: to copy a text of one byte takes longer.
    fn add_byte(&mut self, byte: u8)
        requires { length self.old.bytes + 1 ≤ 65536 }
        ensures { Gathers self.old (byte ∷ []) self.new }
    {
        if !self.broken {
            self.buf[self.waiting] = byte;
            self.waiting += 1;
        }
    }

    pub fn put(&mut self, byte: u8)
        ensures { Gathers self.old (byte ∷ []) self.new }
    {
        if self.waiting < ROOM {
            self.add_byte(byte);
            return;
        }
        self.flush();
        self.add_byte(byte);
    }

    // In decimal digits. (Not by `write!`: a contract knows what that put only where it answers `Ok`, which `write_str` cannot promise to all.)
    pub fn number(&mut self, number: u64)
        ensures { (digits : List ℕ) × Spells digits number × Gathers self.old digits self.new }
    {
        let mut digits = [0u8; 20];
        let from = spell(number, &mut digits);
        self.text(&digits[from..]);
    }

    // Two digits, in small letters.
    pub fn hex(&mut self, byte: u8)
        ensures { Gathers self.old (digit_glyph false (byte / 16) ∷ digit_glyph false (byte % 16) ∷ []) self.new }
    {
        self.put(hex_digit(byte / 16));
        self.put(hex_digit(byte % 16));
    }
}

// For `write!`. It never fails: what is put after a failed write is dropped.
impl fmt::Write for Output {
    ghost write_str_gives = { Gathers };

    fn write_str(&mut self, s: &str) -> fmt::Result {
        self.text(s.as_bytes());
        Ok(())
    }
}

// Whether the bytes went out to standard output. It is told if they did not.
fn is_written(streams: Streams, bytes: &[u8]) -> bool {
    if let Err(why) = streams.out.write_all(bytes) {
        tell_failure(streams, b"standard output", why);
        return false;
    }
    true
}
