// The ports of a list, one by one: a node's inputs, outputs and locals, and a record's fields.
ghost use Rattle.std.specs.Prelude.{◌≡◌, ◌+◌, get_or};
ghost use Rattle.std.specs.Iterator.{at_most};
ghost use Rattle.rules.specs.World.{PortsOf};
ghost use Rattle.rules.specs.Walk.{Walking, Walked};

use crate::ports::type_end;
use lustre::{NameId, Records};

// The ports of a list from one on: the name of each, and its place.
#[derive(Drop)]
pub struct Ports<'a> {
    pub records: Records<'a>,
    pub at: usize,
    pub left: u64,
}

impl<'a> Iterator for Ports<'a> {
    type Item = (NameId, usize);

    ghost can_next = { Walking };

    ghost next_gives = { Walked };

    ghost remaining = { λ s. at_most s.left };

    fn next(&mut self) -> Option<(NameId, usize)> {
        if self.left == 0 {
            return None;
        }
        let at = self.at;
        let name = NameId {
            number: self.records.words[at],
        };
        self.at = type_end(&self.records, at + 1);
        self.left -= 1;
        Some((name, at))
    }
}

// The ports of the list at a place.
// Kept: that a list stands there is asked, here and by what else takes a list, and is no ghost fact: it holds the ports that stand there.
pub fn ports_of<'a>(records: &Records<'a>, list: usize) -> Ports<'a>
    requires { PortsOf records.now list }
    ensures { (result.records ≡ records.now) × (result.at ≡ list + 1) × (result.left ≡ get_or records.now.words.now list 0) }
{
    Ports {
        records: *records,
        at: list + 1,
        left: records.words[list],
    }
}
