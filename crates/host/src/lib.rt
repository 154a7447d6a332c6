// What a program in C calls. `rt lib` makes a static library of it, include/dilkortxi.h declares its
// functions, and docs/HOST.md says how to link and call them.
//
// Each function takes a run of bytes (in C a pointer and a length) and tells whether it is the code of an
// element of its group: 0, or the number of the fault, 2 for a wrong length and 6 for bytes that are no code.
#![tactic(auto)]

ghost use Rattle.std.specs.Prelude.{◌≡◌};
ghost use Rattle.circ523.specs.Kind.{points};
ghost use Rattle.res2039.specs.Kind.{residues};
ghost use Rattle.host.specs.Told.{told as told_by, Tells};

use circ523::Point;
use faults::{Fault, WireFault};
use group::Group;
use res2039::Residue;

// Tries to decode, in any kind of group.
// Stays a number and no Result: a program in C reads it.
fn told<G: Group>(code: &[u8]) -> u8
    ensures answer { result ≡ told_by G.model code.now }
    ensures meaning { Tells G.model code.now result }
{
    if code.len() != G::element_width() {
        return WireFault::WrongLength.refusal().number;
    }
    match G::decode(code) {
        Ok(_) => 0,
        Err(fault) => fault.refusal().number,
    }
}

// res2039: 2 bytes.
#[unsafe(no_mangle)]
pub extern "C" fn dilkortxi_res2039_decode(code: &[u8]) -> u8
    ensures answer { result ≡ told_by residues code.now }
    ensures meaning { Tells residues code.now result }
{
    told::<Residue>(code)
}

// circ523: 4 bytes.
#[unsafe(no_mangle)]
pub extern "C" fn dilkortxi_circ523_decode(code: &[u8]) -> u8
    ensures answer { result ≡ told_by points code.now }
    ensures meaning { Tells points code.now result }
{
    told::<Point>(code)
}
