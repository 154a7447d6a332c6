// The items of a batch, one by one.
ghost use Rattle.std.specs.Prelude.{◌≡◌, ℕ, ◌*◌, ◌%◌, ◌≤◌, [], List, length, Ok, Err, Result, MatchResult};
ghost use Rattle.faults.specs.declared.GroupFault.{GroupFault};
ghost use Rattle.client.specs.Batches.{input_under, sent as sent_for, walked};

use faults::{BatchFault, GroupFault};
use group::Group;
use messages::token_input;
use scratch::ENOUGH;
use std::marker::PhantomData;
use token::{is_null, nonzero};
use voprf::blinding;

// The input of an item's token, of its seed: a nonce and a context.
pub fn input<G: Group>(epoch: u16, id: &[u8; 32], seed: &[u8; 64]) -> [u8; 100]
    ensures { result ≡ input_under G.model epoch id.now seed.now }
{
    token_input(G::kind(), epoch, &seed[..32], &seed[32..], id).unwrap()
}

// What is sent for an item, where its input does not map to the null. The input is hashed to the group once.
pub fn send<G: Group>(
    work: &mut [u8; ENOUGH],
    input: &[u8; 100],
    blind: &[u8],
) -> Result<G, GroupFault>
    ensures { result ≡ sent_for G.model input.now blind.now }
{
    let r = nonzero::<G>(blind)?;
    // A blind is not 0 and the order is prime, so its multiple of an element is the null exactly where the element
    // is: what is sent tells whether the input maps to the null.
    let sent = blinding::blind::<G>(work, r, input);
    if is_null(sent) {
        return Err(GroupFault::NullInput);
    }
    Ok(sent)
}

// What is made of each item of a batch: bytes, as many of each, of its input, its blind and its answer.
// Stays with input, blind and answer apart: each step uses other ones of them, and a struct would be taken apart at once.
pub trait Step<G: Group> {
    ghost made: { List ℕ → List ℕ → List ℕ → Result (List ℕ) GroupFault };

    ghost wide: { ℕ };

    // How many bytes that are.
    fn width() -> usize
        ensures { result ≡ wide };

    // Writes them to their place.
    fn make(
        work: &mut [u8; ENOUGH],
        input: &[u8; 100],
        blind: &[u8],
        got: &[u8],
        place: &mut [u8],
    ) -> Result<(), GroupFault>
        requires { length place.old ≡ wide }
        ensures { MatchResult result (λ _. made input.now blind.now got.now ≡ Ok place.new) (λ f. made input.now blind.now got.now ≡ Err f) };
}

// A batch whose lengths are known to fit: its items' seeds, blinds and answers, each in a row. Before there is a
// reply, no item has an answer.
#[derive(Drop)]
pub struct Batch<'a, G: Group> {
    pub epoch: u16,
    pub count: u8,
    pub id: &'a [u8; 32],
    pub seeds: &'a [u8],
    pub blinds: &'a [u8],
    pub answers: &'a [u8],
    pub group: PhantomData<G>,
    ghost few: { count ≤ 16 },
    ghost seeded: { length seeds.now ≡ 64 * count },
    ghost blinded_each: { length blinds.now ≡ count * G.model.scalars.width },
    ghost whole: { length answers.now % G.model.element_width ≡ 0 },
}

impl<G: Group> Batch<'_, G> {
    // Writes what a step makes of the items in a row.
    pub fn walk<S: Step<G>>(
        &self,
        work: &mut [u8; ENOUGH],
        out: &mut [u8],
    ) -> Result<(), BatchFault>
        requires { length out.old ≡ self.now.count * S.wide }
        ensures { MatchResult result (λ _. walked G.model S.made self.now.epoch self.now.id.now 0 self.now.count self.now.seeds.now self.now.blinds.now self.now.answers.now [] ≡ Ok out.new) (λ f. walked G.model S.made self.now.epoch self.now.id.now 0 self.now.count self.now.seeds.now self.now.blinds.now self.now.answers.now [] ≡ Err f) }
    {
        let width = S::width();
        let (seeds, _) = self.seeds.as_chunks::<64>();
        let blinds = self.blinds.chunks_exact(G::scalar_width());
        let mut answers = self.answers.chunks_exact(G::element_width());
        for ((i, seed), blind) in (0..self.count).zip(seeds).zip(blinds) {
            let input = input::<G>(self.epoch, self.id, seed);
            let got = answers.next().unwrap_or_default();
            // Stays a place that is reckoned: of the parts that `chunks_exact_mut` lends, a proof knows their lengths
            // alone once they are given back.
            let at = i as usize * width;
            S::make(work, &input, blind, got, &mut out[at..at + width]).map_err(
                |fault| fault.of_item(i + 1),
            )?;
        }
        Ok(())
    }
}
