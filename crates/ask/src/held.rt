// What is held of a line, in memory that does not grow with it.
use line::answer::Found;
use track::limit::BYTES;

// Bytes of a file that are held, and the most that are lent to the writer. (10,243 are enough.)
const HELD: usize = 10300;

// Bytes of a file that are read: one more than the longest file, and more can not alter the answer.
const FILE: usize = BYTES + 1;

// The most corner counts of a plan that are held, and the most doubles of its corners. (17, and those of 17 zones of 65 corners, are enough.)
pub const COUNTS: usize = 20;

pub const CORNERS: usize = 2212;

// Numbers of a question that are held: its doubles, and before them a plan's counts. (Two more than a plan has with its point, which is the longest
// question, so that a list which is full is too long for every word.)
const LIST: usize = COUNTS + 2 + CORNERS + 2;

// The numbers of a line: its doubles, or the bytes of its file.
#[derive(Drop)]
pub struct Held {
    pub list: [f64; LIST],
    pub bytes: [u8; HELD],
    // How many there are, of the one or of the other.
    pub taken: usize,
}

impl Held {
    pub fn new() -> Held {
        Held {
            list: [0.0; LIST],
            bytes: [0; HELD],
            taken: 0,
        }
    }

    // What was found more in the line.
    pub fn hold(&mut self, found: Found) {
        match found {
            Found::Number(pattern) => self.hold_double(double::from_pattern(pattern)),
            Found::Byte(b) => self.hold_byte(b),
        }
    }

    // A full list counts one less, so that it stays odd or even as the question's is.
    fn hold_double(&mut self, x: f64) {
        if self.taken < LIST {
            self.list[self.taken] = x;
            self.taken += 1;
        } else {
            self.taken -= 1;
        }
    }

    fn hold_byte(&mut self, b: u8) {
        if self.taken < FILE {
            self.bytes[self.taken] = b;
            self.taken += 1;
        }
    }
}
