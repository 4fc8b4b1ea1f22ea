// The lines that every checking function writes: six words each, in the order of the fields of `lustre::Line`, in a buffer that is lent.
// The buffer is a window on all lines: a line outside it is counted and not stored, so that the same functions serve a whole report and a
// batch of it.
#![tactic(auto)]

ghost use Rattle.std.specs.Prelude.{◌≡◌, false};
ghost use Rattle.lines.specs.Lines.{Put};

use lustre::NONE;

// What is constant in one equation: a line's place, number and equation, and whether the node is a function.
// Kept: a spot goes beside the lines and is no field of them, since it stays while they go on: each contract would have to say that.
#[derive(Clone, Copy)]
pub struct Spot {
    pub place: u64,
    pub number: u64,
    pub equation: u64,
    pub function: bool,
}

impl Spot {
    // A spot with no equation and no function, for the lines on a declaration as a whole.
    pub fn about(place: u64, number: u64) -> Spot
        ensures { (result.place ≡ place) × (result.number ≡ number) × (result.equation ≡ 18_446_744_073_709_551_615) × (result.function ≡ false) }
    {
        Spot {
            place,
            number,
            equation: NONE,
            function: false,
        }
    }
}

// The words of the lines that are lent, the number of the line that goes to their first place, and the number of lines so far, which stays
// at 2^64 - 1.
#[derive(Drop)]
pub struct Lines<'a> {
    pub out: &'a mut [u64],
    pub first: u64,
    pub count: u64,
}

impl<'a> Lines<'a> {
    // Stores a line if it is in the window, and counts it.
    pub fn put(&mut self, q: Spot, code: u64, step: u64, name: u64)
        ensures { Put q code step name self.old self.new }
    {
        let n = self.count;
        let room = self.out.len() as u64 / 6;
        self.count = n.saturating_add(1);
        if n < self.first {
            return;
        }
        let k = n - self.first;
        if k < room {
            let i = k as usize * 6;
            self.out[i] = code;
            self.out[i + 1] = q.place;
            self.out[i + 2] = q.number;
            self.out[i + 3] = q.equation;
            self.out[i + 4] = step;
            self.out[i + 5] = name;
        }
    }
}
