// Lines of the report as structs in a slice that the caller lends: document 01, 'the lent slice of report lines, each a record of six
// fields'. `fill` stores line after line from the flat buffer of `lines`, six words each, that every checking function writes to. Nothing
// is stored past what is asked.
#![tactic(auto)]

ghost use Rattle.std.specs.Prelude.{◌≡◌, ◌*◌, ◌≤◌, length};
ghost use Rattle.lines.specs.Lines.{line_in};
ghost use Rattle.stored.specs.Lines.{lines_in};

use lustre::Line;

// The line that six words are.
#[tactic(auto, unfolding(lines::specs::Lines::line_in))]
fn line_of(words: [u64; 6]) -> Line
    ensures { result ≡ line_in words 0 }
{
    let [code, place, number, equation, step, name] = words;
    Line {
        code,
        place,
        number,
        equation,
        step,
        name,
    }
}

// Stores as many lines of the flat buffer as there are places.
// Kept: the buffer is flat, since it is the lent work memory, words that serve other steps too: a call has no memory of its own.
// Kept: the lines are counted, since the library doesn't say what a `zip` over `iter_mut` leaves in the slice.
pub fn fill(lines: &mut [Line], flat: &[u64])
    requires { length lines.old * 6 ≤ length flat.now }
    ensures { lines.new ≡ lines_in (length lines.old) flat.now }
{
    let (sixes, _) = flat.as_chunks::<6>();
    for (i, line) in lines.iter_mut().enumerate() {
        *line = line_of(sixes[i]);
    }
}
