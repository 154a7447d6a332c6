// How a kind of book lies in lent memory.
ghost use Rattle.std.specs.Prelude.{◌≡◌, ℕ, ◌≤◌, length, Result};
ghost use Rattle.std.specs.Result.{OnErr};
ghost use Rattle.faults.specs.declared.WireFault.{WireFault};
ghost use Rattle.book.specs.Making.{Worked};
ghost use Rattle.book.specs.Rooms.{room_in, Most};

use crate::Work;
use faults::WireFault;

// A kind of book over lent memory: how many pairs memory takes, and work on a fresh book over it.
pub trait Layout {
    // The capacity that memory of a length gives, or why it holds no book.
    ghost room: { ℕ → Result ℕ WireFault };

    // How many pairs memory of this length takes.
    fn capacity_in(len: usize) -> Result<u16, WireFault>
        ensures { result ≡ room len };

    // Does a piece of work on a fresh book over the memory. Memory that holds no book is refused, and is left
    // as it is.
    // Stays without a body here: it would have to name the type of the book, which has a lifetime, and an
    // associated type takes none.
    fn with_book<W: Work + Drop>(memory: &mut [u8], work: W) -> Result<W::Answer, WireFault>
        ensures answer { Worked (W.told work) (room (length memory.old)) result }
        ensures stays { OnErr (room (length memory.old)) (memory.new ≡ memory.old) };
}

// How many records of so many bytes fit behind a head, at most 1,024. Memory without a whole record is refused
// as a wrong length.
pub fn records_in<const HEAD: usize, const RECORD: usize>(len: usize) -> Result<u16, WireFault>
    requires { 1 ≤ RECORD }
    ensures answer { result ≡ room_in HEAD RECORD len }
    ensures most { Most HEAD RECORD len result }
{
    let fit = len.saturating_sub(HEAD) / RECORD;
    if fit == 0 {
        return Err(WireFault::WrongLength);
    }
    Ok(fit.min(1024) as u16)
}
