// The checks of an opening.
ghost use Rattle.std.specs.Prelude.{◌≡◌, ◌≤◌, length, OnOk};
ghost use Rattle.ring.specs.Places.{admits};
ghost use Rattle.station.specs.Answers.{opening as opened_by};

use faults::{StationFault, WireFault};
use group::Group;
use ring::Ring;
use scratch::ENOUGH;
use token::nonzero;

// The key under which an epoch may be opened, or the first fault.
pub fn admitted_key<G: Group>(
    ring: &Ring<G::NonZero>,
    scratch: usize,
    epoch: u16,
    key: &[u8],
    outlet: usize,
) -> Result<G::NonZero, StationFault>
    ensures answer { result ≡ opened_by G.model scratch (admits ring.now epoch) key.now outlet }
    ensures fits { OnOk result (G.model.element_width ≤ outlet) }
{
    if scratch < ENOUGH {
        return Err(StationFault::Wire(WireFault::ShortScratch));
    }
    if key.len() != G::scalar_width() {
        return Err(StationFault::Wire(WireFault::WrongLength));
    }
    let key = nonzero::<G>(key)?;
    ring.admit(epoch)?;
    if outlet < G::element_width() {
        return Err(StationFault::Wire(WireFault::ShortOutlet));
    }
    Ok(key)
}
