// The blind steps and the batch proof, written once for every kind of group.
//
//   shop                                   station (key k, public key pk = k G)
//   B = r H(input)      -- request -->     E = k B
//   U = r^-1 E          <-- reply ---      proof (c, s) that one key answered every item
//   authenticator = hash of input and U    (by the key itself: of input and k H(input))
//
// H maps an input to an element. The proof is about M and W, the weighted sums of all that was sent and of
// all that was answered; prover and checker reckon them by the same `composites`.
#![tactic(auto)]

pub mod blinding;
pub mod proving;
