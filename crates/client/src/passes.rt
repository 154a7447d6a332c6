// What is made of the items of a batch: what `blind` sends; and by the two passes of `finish`, of which the first
// checks and the second writes.
ghost use Rattle.std.specs.Prelude.{◌≡◌};
ghost use Rattle.client.specs.Batches.{sent_code};
ghost use Rattle.client.specs.Finishing.{sent_again, finalized, code_again, token_made};

use crate::items::{Step, send};
use faults::GroupFault;
use group::Group;
use hashing::authenticator;
use scratch::ENOUGH;
use token::{element, nonzero};
use voprf::blinding::unblind;

// How many bytes a token has.
pub const TOKEN: usize = 132;

// The code of what is sent for an item.
pub struct Sending;

impl<G: Group> Step<G> for Sending {
    ghost made = { sent_code G.model };

    ghost wide = { G.model.element_width };

    fn width() -> usize {
        G::element_width()
    }

    fn make(
        work: &mut [u8; ENOUGH],
        input: &[u8; 100],
        blind: &[u8],
        _got: &[u8],
        place: &mut [u8],
    ) -> Result<(), GroupFault> {
        let sent = send::<G>(work, input, blind)?;
        place.copy_from_slice(sent.encode().as_slice());
        Ok(())
    }
}

// The code of what was sent for an item that has a good answer.
pub struct Checking;

impl<G: Group> Step<G> for Checking {
    ghost made = { code_again G.model };

    ghost wide = { G.model.element_width };

    fn width() -> usize {
        G::element_width()
    }

    fn make(
        work: &mut [u8; ENOUGH],
        input: &[u8; 100],
        blind: &[u8],
        got: &[u8],
        place: &mut [u8],
    ) -> Result<(), GroupFault> {
        let sent = resend::<G>(work, input, blind, got)?;
        place.copy_from_slice(sent.encode().as_slice());
        Ok(())
    }
}

// The token of an item.
pub struct Writing;

impl<G: Group> Step<G> for Writing {
    ghost made = { token_made G.model };

    ghost wide = { 132 };

    fn width() -> usize {
        TOKEN
    }

    fn make(
        work: &mut [u8; ENOUGH],
        input: &[u8; 100],
        blind: &[u8],
        got: &[u8],
        place: &mut [u8],
    ) -> Result<(), GroupFault> {
        let authenticator = finalize::<G>(work, input, blind, got)?;
        let (front, back) = place.split_at_mut(input.len());
        front.copy_from_slice(input);
        back.copy_from_slice(&authenticator);
        Ok(())
    }
}

// What was sent for an item, where its answer is an element that is not the null.
fn resend<G: Group>(
    work: &mut [u8; ENOUGH],
    input: &[u8; 100],
    blind: &[u8],
    got: &[u8],
) -> Result<G, GroupFault>
    ensures { result ≡ sent_again G.model input.now blind.now got.now }
{
    let again = send::<G>(work, input, blind)?;
    element::<G>(got)?;
    Ok(again)
}

// The authenticator of an item's token.
fn finalize<G: Group>(
    work: &mut [u8; ENOUGH],
    input: &[u8; 100],
    blind: &[u8],
    got: &[u8],
) -> Result<[u8; 32], GroupFault>
    ensures { result ≡ finalized G.model input.now blind.now got.now }
{
    let r = nonzero::<G>(blind)?;
    let e = element::<G>(got)?;
    Ok(authenticator(work, input, unblind(r, e)))
}
